// The words of a line: what its single spaces part.
ghost use Rattle.std.specs.Prelude.{◌≡◌, ◌≤◌, length, drop};
ghost use Rattle.words.specs.Line.{up_to, first_from, words_of, word_of};

// How many words a line has. An empty one is a word too, so there is always one.
#[tactic(auto, using(crate::proofs::Splits::length_cut))]
pub fn words(line: &[u8]) -> usize
    ensures { result ≡ length (words_of line.now) }
{
    line.iter().filter(|b| **b == b' ').count() + 1
}

// The word at place `k` of a line, from 0, and an empty one where there is none.
#[tactic(auto, using(crate::proofs::Splits::the_word, crate::proofs::Splits::find_le))]
pub fn word<'a>(line: &'a [u8], k: usize) -> &'a [u8]
    ensures { result.now ≡ word_of line.now k }
{
    let from = start_of(line, k);
    &line[from..find(line, b' ', from)]
}

// Where the word at place `k` starts; the end of the line where there is none.
#[tactic(auto, using(crate::proofs::Splits::start_laws))]
fn start_of(line: &[u8], k: usize) -> usize
    ensures { (result ≤ length line.now) × (word_of line.now k ≡ word_of (drop result line.now) 0) }
{
    let mut left = k;
    for (i, b) in line.iter().enumerate() {
        if left == 0 {
            return i;
        }
        if *b == b' ' {
            left -= 1;
        }
    }
    line.len()
}

// Where the first `b` stands from a place on; the end, where there is none; and the place itself, where
// it lies past the end. (No Option: a word ends at either.)
#[tactic(auto, using(crate::proofs::Splits::first_past, crate::proofs::Splits::first_within, crate::proofs::Splits::up_to_le))]
pub fn find(s: &[u8], b: u8, from: usize) -> usize
    ensures { result ≡ first_from b from s.now }
{
    let Some(rest) = s.get(from..) else {
        return from;
    };
    from + up_to(rest, b)
}

// How many stand before the first `b`; all, where there is none.
#[tactic(auto, using(crate::proofs::Splits::up_to_laws))]
fn up_to(s: &[u8], b: u8) -> usize
    ensures { result ≡ up_to b s.now }
{
    for (i, x) in s.iter().enumerate() {
        if *x == b {
            return i;
        }
    }
    s.len()
}
