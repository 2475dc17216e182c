// A command's number with the numbers of its fields.
ghost use Rattle.std.specs.Prelude.{ℕ, ◌≡◌, ◌≤◌, ◌<◌, List, take, length};
ghost use Rattle.std.specs.Option.{ForSome};

use std::marker::Model;

// At most 37 numbers, as many as a Set Other Modes has fields: an array and a count, since there is no heap.
#[derive(Drop)]
pub struct Numbers {
    values: [u64; 37],
    count: usize,
}

impl Model for Numbers {
    ghost Value = { List ℕ };

    ghost view = { λ n. take n.count n.values };

    ghost invariant = { λ n. n.count ≤ 37 };
}

impl Numbers {
    pub fn new(values: &[u64]) -> Self
        requires { length values.now ≤ 37 }
        ensures { result ≡ values.now }
    {
        let count = values.len();
        let mut all = [0u64; 37];
        all[..count].copy_from_slice(values);
        Numbers { values: all, count }
    }

    pub fn as_slice(&self) -> &[u64]
        ensures { (result.now ≡ self.now) × (length result.now ≤ 37) }
    {
        &self.values[..self.count]
    }
}

// A command's number, where it is one that the command can have, and the numbers of its fields.
#[derive(Drop)]
pub struct Numbered {
    pub number: Option<u8>,
    pub numbers: Numbers,
    ghost small: { ForSome number (λ n. n < 64) },
}

impl Numbered {
    pub fn new(number: Option<u8>, values: &[u64]) -> Self
        requires { ForSome number (λ n. n < 64) × (length values.now ≤ 37) }
        ensures { (result.number ≡ number) × (result.numbers ≡ values.now) }
    {
        Numbered {
            number,
            numbers: Numbers::new(values),
        }
    }
}
