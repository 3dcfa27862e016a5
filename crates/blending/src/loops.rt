// Runs of words: those that `draw` reads, and those that it draws on. Each format has loops of its own, which ask for
// no format and no rule at a word.
ghost use Rattle.std.specs.Prelude.{◌≡◌, ◌≤◌, ℕ};
ghost use Rattle.words.specs.Format.{format_of};
ghost use Rattle.blending.specs.Blend.{rule_of};
ghost use Rattle.blending.specs.Loops.{argb_of, blended, pairwise, stored};

use crate::drawn::Drawn;
use words::layout::{Abgr, Argb, Rgb8, Rgb332, Rgb565};

// Makes each word what is made of the colour and the word beside each other, as far as there are both.
fn pairwise<F: Fn(u32, u32) -> u32>(colors: &[u32], words: &mut [u32], make: F)
    requires { F.IsAlwaysCallable make }
    ensures { (f : ℕ → ℕ → ℕ) → ((c w r : ℕ) → F.post make c w r → r ≡ f c w) → words.new ≡ pairwise f colors.now words.old }
{
    for i in 0..colors.len().min(words.len()) {
        words[i] = make(colors[i], words[i]);
    }
}

fn read_as<L: Drawn>(words: &mut [u32])
    ensures { words.new ≡ argb_of L.form words.old }
{
    for word in words.iter_mut() {
        *word = L::argb(*word);
    }
}

fn blend_as<L: Drawn>(rule: u32, xor: bool, colors: &[u32], words: &mut [u32])
    ensures { words.new ≡ blended L.form (rule_of rule) xor colors.now words.old }
{
    if xor {
        pairwise(colors, words, |color, word| L::flip(color, word))
    } else if rule == 2 {
        pairwise(colors, words, |color, word| L::over(2, color, word))
    } else {
        pairwise(colors, words, |color, word| L::over(1, color, word))
    }
}

fn store_as<L: Drawn>(colors: &[u32], words: &mut [u32])
    ensures { words.new ≡ stored L.form colors.now words.old }
{
    pairwise(colors, words, |color, _| L::store(color))
}

// Makes each word of a format the ARGB word of its colour.
pub fn read_colors(format: u32, words: &mut [u32])
    requires { format ≤ 4 }
    ensures { words.new ≡ argb_of (format_of format) words.old }
{
    match format {
        0 => read_as::<Rgb332>(words),
        1 => read_as::<Rgb565>(words),
        2 => read_as::<Rgb8>(words),
        3 => read_as::<Argb>(words),
        _ => read_as::<Abgr>(words),
    }
}

// Draws each ARGB word over the word of a format beside it.
pub fn blend_words(format: u32, rule: u32, xor: bool, colors: &[u32], words: &mut [u32])
    requires { format ≤ 4 }
    ensures { words.new ≡ blended (format_of format) (rule_of rule) xor colors.now words.old }
{
    match format {
        0 => blend_as::<Rgb332>(rule, xor, colors, words),
        1 => blend_as::<Rgb565>(rule, xor, colors, words),
        2 => blend_as::<Rgb8>(rule, xor, colors, words),
        3 => blend_as::<Argb>(rule, xor, colors, words),
        _ => blend_as::<Abgr>(rule, xor, colors, words),
    }
}

// Makes each word of a format the word of the colour of the ARGB word beside it: what `blend_words` does with XOR off
// where alpha is 255.
pub fn store_words(format: u32, colors: &[u32], words: &mut [u32])
    requires { format ≤ 4 }
    ensures { words.new ≡ stored (format_of format) colors.now words.old }
{
    match format {
        0 => store_as::<Rgb332>(colors, words),
        1 => store_as::<Rgb565>(colors, words),
        2 => store_as::<Rgb8>(colors, words),
        3 => store_as::<Argb>(colors, words),
        _ => store_as::<Abgr>(colors, words),
    }
}
