// The lists, as words and a length in bytes: the words are cut there, or go on as zeros. tools/vectors.py reads them here, with the comment above each.
// Single bits and words with all bits set are in bits.rt and main.rt.

pub static LISTS: [(&[u64], usize); 71] = [
    // 0x00: G_SPNOOP of document 003.
    (&[0x0000_0000_0000_0000], 8),
    // 0x07: its example of G_QUAD; no operation to the RDP, its other bits unused.
    (&[0x0700_0204_0000_0406], 8),
    // 0x10, all other bits set.
    (&[0xD0FF_FFFF_FFFF_FFFF], 8),
    // 0x1E: its example of G_DL.
    (&[0xDE00_0000_0700_0A50], 8),
    // 0x20: G_NOOP.
    (&[0xE000_0000_0000_0000], 8),
    // 0x23: G_SetOtherMode_H, two-cycle mode.
    (&[0xE300_0A01_0010_0000], 8),
    // 0x31: G_RDPHALF_2, the steps of a texture rectangle.
    (&[0xF100_0000_0400_0400], 8),
    // 0x08: slopes of -1.5, 1.25 and -0.25.
    (
        &[
            0x0800_01E0_0140_00A0,
            0x0064_8000_3FFE_8000,
            0x00C8_4000_0001_4000,
            0x00C8_4000_3FFF_C000,
        ],
        32,
    ),
    // 0x09: every signed field at an end of its range or at -1.
    (
        &[
            0x09BF_3FFF_1FFF_2000,
            0x0FFF_FFFF_3FFF_0001,
            0x0800_0000_2000_0000,
            0x07FF_FFFF_1FFF_FFFF,
            0x7FFF_8000_FFFE_4000,
            0x8001_2345_0000_FFFF,
        ],
        48,
    ),
    // 0x0A: every unused bit of the base set.
    (
        &[
            0xCA6A_C123_F000_C064,
            0xF123_4567_E001_89AB,
            0xF9AB_CDEF_C001_8000,
            0xFFFF_0000_FFFF_0000,
            0xFFC0_0040_7FFF_FFFF,
            0x0020_FFE0_8001_A5A5,
            0x1111_2222_3333_4444,
            0xFEDC_BA98_7654_3210,
            0x0800_F800_0001_5A5A,
            0xDEAD_BEEF_CAFE_F00D,
            0x7000_0007_0700_0070,
            0x5555_AAAA_9999_6666,
        ],
        96,
    ),
    // 0x0B: the heights, two x and two slopes negative.
    (
        &[
            0x0B84_3F9C_3F38_3E70,
            0x0FF6_1999_3FFD_6666,
            0x0014_E666_0002_9999,
            0x0F38_0001_3FF0_FFFF,
            0xFFC0_0040_7FFF_FFFF,
            0x0020_FFE0_8001_A5A5,
            0x1111_2222_3333_4444,
            0xFEDC_BA98_7654_3210,
            0x0800_F800_0001_5A5A,
            0xDEAD_BEEF_CAFE_F00D,
            0x7000_0007_0700_0070,
            0x5555_AAAA_9999_6666,
            0x7FFF_8000_FFFE_4000,
            0x8001_2345_0000_FFFF,
        ],
        112,
    ),
    // 0x0C: yl 8191, ym 0, yh -8192.
    (
        &[
            0xCC39_1FFF_0000_2000,
            0x07FF_0000_1FFF_0000,
            0x0800_8000_2000_8000,
            0x0000_0001_0000_0001,
            0x00FF_0080_0040_00FF,
            0xFFFE_0001_8000_7FFF,
            0x8000_1234_FFFF_0001,
            0x4000_C000_0FED_CBA9,
            0x0003_FFFC_0010_FFF0,
            0x0102_0304_0506_0708,
            0x89AB_CDEF_0123_4567,
            0xF0E1_D2C3_B4A5_9687,
        ],
        96,
    ),
    // 0x0D: a triangle across the upper left corner of the screen.
    (
        &[
            0x0D80_0050_0010_3FC0,
            0x0028_0000_3FFE_0000,
            0x0FE0_8000_0000_8000,
            0x0FE0_8000_0003_4000,
            0x00FF_0080_0040_00FF,
            0xFFFE_0001_8000_7FFF,
            0x8000_1234_FFFF_0001,
            0x4000_C000_0FED_CBA9,
            0x0003_FFFC_0010_FFF0,
            0x0102_0304_0506_0708,
            0x89AB_CDEF_0123_4567,
            0xF0E1_D2C3_B4A5_9687,
            0x7FFF_8000_FFFE_4000,
            0x8001_2345_0000_FFFF,
        ],
        112,
    ),
    // 0x0E: alternating bits.
    (
        &[
            0x0EAD_1555_2AAA_1555,
            0x0AAA_5555_2AAA_5555,
            0x0555_AAAA_1555_AAAA,
            0x0A5A_A5A5_1A5A_A5A5,
            0x00FF_0080_0040_00FF,
            0xFFFE_0001_8000_7FFF,
            0x8000_1234_FFFF_0001,
            0x4000_C000_0FED_CBA9,
            0x0003_FFFC_0010_FFF0,
            0x0102_0304_0506_0708,
            0x89AB_CDEF_0123_4567,
            0xF0E1_D2C3_B4A5_9687,
            0xFFC0_0040_7FFF_FFFF,
            0x0020_FFE0_8001_A5A5,
            0x1111_2222_3333_4444,
            0xFEDC_BA98_7654_3210,
            0x0800_F800_0001_5A5A,
            0xDEAD_BEEF_CAFE_F00D,
            0x7000_0007_0700_0070,
            0x5555_AAAA_9999_6666,
        ],
        160,
    ),
    // 0x0F, with a Sync Full after it that is not read.
    (
        &[
            0xCF92_0123_3456_2789,
            0x0BCD_EF01_2345_6789,
            0x0987_6543_3210_FEDC,
            0x0765_4321_1ABC_DEF0,
            0x00FF_0080_0040_00FF,
            0xFFFE_0001_8000_7FFF,
            0x8000_1234_FFFF_0001,
            0x4000_C000_0FED_CBA9,
            0x0003_FFFC_0010_FFF0,
            0x0102_0304_0506_0708,
            0x89AB_CDEF_0123_4567,
            0xF0E1_D2C3_B4A5_9687,
            0xFFC0_0040_7FFF_FFFF,
            0x0020_FFE0_8001_A5A5,
            0x1111_2222_3333_4444,
            0xFEDC_BA98_7654_3210,
            0x0800_F800_0001_5A5A,
            0xDEAD_BEEF_CAFE_F00D,
            0x7000_0007_0700_0070,
            0x5555_AAAA_9999_6666,
            0x7FFF_8000_FFFE_4000,
            0x8001_2345_0000_FFFF,
            0xE900_0000_0000_0000,
        ],
        184,
    ),
    // G_TEXRECT over a screen of 320 by 240, one texel a pixel.
    (&[0xE450_03C0_0000_0000, 0x0000_0000_0400_0400], 16),
    // 0x24: every unused bit set; s, t, dsdx and dtdy negative.
    (&[0xE4AB_CDEF_FD12_3456, 0xFFE0_FFFF_FC00_8000], 16),
    // 0x24, with 7 bytes after it that are not read.
    (
        &[
            0x24FF_F001_0300_2FFE,
            0x8000_7FFF_FFFF_0001,
            0xE900_0000_0000_0000,
        ],
        23,
    ),
    // G_TEXRECTFLIP.
    (&[0xE50A_00C0_0105_0060, 0x0010_FFF0_0400_FC00], 16),
    // G_RDPLOADSYNC.
    (&[0xE600_0000_0000_0000], 8),
    // G_RDPPIPESYNC.
    (&[0xE700_0000_0000_0000], 8),
    // G_RDPTILESYNC.
    (&[0xE800_0000_0000_0000], 8),
    // G_RDPFULLSYNC.
    (&[0xE900_0000_0000_0000], 8),
    // G_SETKEYGB.
    (&[0xEA1C_02D0_80FF_4020], 8),
    // 0x2A.
    (&[0x2AFE_DCBA_9876_5432], 8),
    // G_SETKEYR.
    (&[0xEB00_0000_01C0_80FF], 8),
    // G_SETCONVERT: 175, -43, -89, 222, 114, 42 in 9 bits. Document 01 reads them as unsigned.
    (&[0xEC15_FD5D_3B78_E42A], 8),
    // G_SETSCISSOR, 320 by 240.
    (&[0xED00_0000_0050_03C0], 8),
    // G_SETSCISSOR, odd lines.
    (&[0xED02_8034_034D_837C], 8),
    // The scissor of document 01, 8 by 4.
    (&[0x2D00_0000_0002_0010], 8),
    // G_SETPRIMDEPTH. Document 01 reads both as unsigned.
    (&[0xEE00_0000_8000_FFFF], 8),
    // G_RDPSetOtherMode, two-cycle mode, perspective and bilinear filter.
    (&[0xEF18_2C0F_C811_2078], 8),
    // The modes of document 01: FILL.
    (&[0x2F30_0000_0000_0000], 8),
    // G_LOADTLUT, 256 colours.
    (&[0xF000_0000_073F_C000], 8),
    // G_LOADBLOCK, the four examples of document 003.
    (&[0xF300_0000_077F_F100], 8),
    (&[0xF300_0000_077F_F080], 8),
    (&[0xF300_0000_073F_F100], 8),
    (&[0xF300_0000_07FF_F100], 8),
    // G_LOADTILE.
    (&[0xF401_0020_0507_C0FC], 8),
    // G_SETTILESIZE, the three examples of document 003.
    (&[0xF200_0000_0007_C07C], 8),
    (&[0xF200_0000_000F_C07C], 8),
    (&[0xF200_0000_0007_C0FC], 8),
    // G_SETTILE, the seven examples of document 003.
    (&[0xF510_0000_0700_0000], 8),
    (&[0xF570_0000_0700_0000], 8),
    (&[0xF510_1000_0701_4050], 8),
    (&[0xF510_2000_0701_4060], 8),
    (&[0xF570_1000_0001_4050], 8),
    (&[0xF500_0100_0100_0000], 8),
    (&[0xF540_0800_0009_8060], 8),
    // G_FILLRECT, 320 by 240.
    (&[0xF64F_C3BC_0000_0000], 8),
    // R of document 01: pixels (1,1) to (2,2).
    (&[0x3600_8008_0000_4004], 8),
    // G_SETFILLCOLOR.
    (&[0xF700_0000_0001_0001], 8),
    // C of document 01.
    (&[0x3700_0000_F801_003F], 8),
    // 0x37, every unused bit set, with 3 bytes after it that are not read.
    (&[0xF7FF_FFFF_89AB_CDEF, 0xFFFF_FF00_0000_0000], 11),
    // G_SETFOGCOLOR, the example of document 003.
    (&[0xF800_0000_00FF_00FF], 8),
    // G_SETBLENDCOLOR.
    (&[0xF900_0000_00FF_00FF], 8),
    // G_SETPRIMCOLOR.
    (&[0xFA00_8040_1234_5678], 8),
    // G_SETENVCOLOR, the example of document 003.
    (&[0xFB00_0000_FF00_008C], 8),
    // G_SETCOMBINE, the two examples of document 003.
    (&[0xFC12_7FFF_FFFF_F838], 8),
    (&[0xFC12_1824_FF33_FFFF], 8),
    // G_SETTIMG, the example of document 003. Its segment is in unused bits.
    (&[0xFD10_0000_0400_0090], 8),
    // G_SETZIMG.
    (&[0xFE00_0000_0E02_5800], 8),
    // G_SETCIMG, 16 bits, 320 wide.
    (&[0xFF10_013F_003D_A800], 8),
    // The colour image of document 01.
    (&[0x3F10_0007_0000_0000], 8),
    // No bytes.
    (&[], 0),
    // 7 bytes.
    (&[0xE700_0000_0000_0000], 7),
    // Triangles that are cut: 0x08 a byte short, 0x0F a word and a byte short.
    (
        &[
            0x0800_01E0_0140_00A0,
            0x0064_8000_3FFE_8000,
            0x00C8_4000_0001_4000,
            0x00C8_4000_3FFF_C000,
        ],
        31,
    ),
    (&[0x0F00_01E0_0140_00A0], 168),
    (&[0x0F00_01E0_0140_00A0], 175),
    // Texture rectangles that are cut.
    (&[0xE450_03C0_0000_0000], 8),
    (&[0xE550_03C0_0000_0000, 0x0000_0000_0400_0400], 15),
];
