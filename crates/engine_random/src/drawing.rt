//! Drawing words.

ghost use Rattle.std.specs.Prelude.{◌≡◌, IfOk, length};
ghost use Rattle.engine_random.specs.Words.{draws, words};

use base::{Refused, Seq, push};
use rand_core::utils::NextWord;
use rand_pcg::Lcg128Xsl64;
use std::alloc::Global;
use std::simd::u64x4;

/// The generator's next four 64-bit words.
pub fn draw(generator: &mut Lcg128Xsl64) -> [u64; 4]
    ensures { (result, generator.new) ≡ words 4 generator.old }
{
    let first = generator.next_word();
    let second = generator.next_word();
    let third = generator.next_word();
    let fourth = generator.next_word();
    [first, second, third, fourth]
}

/// The next four words as a value for each run: word `k` is lane `k`.
pub fn draw_lanes(generator: &mut Lcg128Xsl64) -> u64x4
    ensures { (result, generator.new) ≡ words 4 generator.old }
{
    u64x4::from_array(draw(generator))
}

/// The next `count` draws, in their order.
pub fn draw_row(
    alloc: Global,
    count: usize,
    generator: &mut Lcg128Xsl64,
) -> Result<Seq<u64x4>, Refused>
    ensures long { IfOk result (λ row. length row ≡ count) }
    ensures drawn { IfOk result (λ row. (row, generator.new) ≡ draws count generator.old) }
{
    let mut row = Vec::new(alloc);
    for _ in 0..count {
        push(&mut row, draw_lanes(generator))?;
    }
    Ok(Seq::from_vec(row))
}
