// What the words and the numbers of a block weigh: a loop for each width and step, which the compiler makes of many at once.
ghost use Rattle.std.specs.Prelude.{◌≡◌, ◌+◌, ◌*◌, ◌≤◌, length, drop};
ghost use Rattle.layout.specs.Families.{wide};
ghost use Rattle.samples.specs.inner.Narrow.{words_by};
ghost use Rattle.weights.specs.inner.Weights.{weighed, by_words, block_by, There, weight_at, Dropped};

use crate::Kind;

// A word outside the limits weighs more than the most values of a ping.
const HEAVY: u64 = 32_765;

// n words of a C-32 ping, from a place on.
fn words4(file: &[u8], msb: bool, from: usize, n: usize) -> u64
    requires n_in_bounds { from + 4 * n ≤ length file.now }
    requires n_bound { n ≤ 8192 }
    ensures { result ≡ weighed (by_words wide msb) 4 n (drop from file.now) }
{
    let mut values: u32 = 0;
    let mut bad: u32 = 0;
    for i in 0..n {
        let word = order::read4(file, from + 4 * i, msb);
        values += u32::from(!samples::is_run(word));
        bad += u32::from(samples::is_bad(word));
    }
    u64::from(values) + HEAVY * u64::from(bad)
}

// n words of a C-16 or a CE-16 ping.
fn words2(file: &[u8], msb: bool, encoded: bool, from: usize, n: usize) -> u64
    requires n_in_bounds { from + 2 * n ≤ length file.now }
    requires n_bound { n ≤ 8192 }
    ensures { result ≡ weighed (by_words (words_by encoded) msb) 2 n (drop from file.now) }
{
    let most = samples16::most_bad(encoded);
    let mut values: u16 = 0;
    let mut bad: u16 = 0;
    for i in 0..n {
        let word = order::read2(file, from + 2 * i, msb);
        values += u16::from(!samples16::is_run(word));
        bad += u16::from(samples16::is_bad(word, most));
    }
    u64::from(values) + HEAVY * u64::from(bad)
}

// Of n numbers, those that the next isn't above; one more is looked at.
fn drops<F: Fn(usize) -> u32>(n: usize, number: F) -> u64
    requires n_bound { n ≤ 8192 }
    requires callable { (i : _) → i ≤ n → F.pre number i }
    ensures { Dropped (F.post number) n result }
{
    let mut drops: u32 = 0;
    for i in 0..n {
        drops += u32::from(number(i + 1) <= number(i));
    }
    u64::from(drops)
}

// n of a kind, at most a block.
pub fn weigh(file: &[u8], msb: bool, kind: Kind, from: usize, n: usize) -> u64
    requires there { There kind from n (length file.now) }
    requires n_bound { n ≤ block_by kind }
    ensures value { result ≡ weight_at kind msb file.now from n }
    ensures upper_bound { result ≤ 32766 * n }
{
    match kind {
        Kind::C32 => words4(file, msb, from, n),
        Kind::C16 => words2(file, msb, false, from, n),
        Kind::CE16 => words2(file, msb, true, from, n),
        Kind::Pairs => drops(n, |i| order::read4(file, from + 8 * i, msb)),
        Kind::Shorts => drops(n, |i| u32::from(order::front2(file, from + 4 * i, msb))),
        Kind::Triples => drops(n, |i| u32::from(order::read2(file, from + 6 * i, msb))),
    }
}
