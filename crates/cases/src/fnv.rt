// The 64-bit FNV-1a.
ghost use Rattle.std.specs.Prelude.{◌≡◌};
ghost use Rattle.cases.specs.Hash.{taken_in, hash_from, hash_of, bytes_of, all_bytes};

// The hash of nothing.
const BASIS: u64 = 14695981039346656037;

// 2^40 + 435.
const PRIME: u64 = 1099511628211;

fn take_in(h: u64, b: u8) -> u64
    ensures { result ≡ taken_in h b }
{
    (h ^ u64::from(b)).wrapping_mul(PRIME)
}

#[tactic(auto, unfolding(crate::specs::Hash::hash_of))]
pub fn hash(bytes: &[u8]) -> u64
    ensures { result ≡ hash_of bytes.now }
{
    bytes.iter().fold(BASIS, |h, b| take_in(h, *b))
}

// Takes a word in, its lowest byte first.
fn take_word(h: u64, word: u32) -> u64
    ensures { result ≡ hash_from h (bytes_of word) }
{
    let bytes = word.to_le_bytes();
    bytes.iter().fold(h, |h, b| take_in(h, *b))
}

// The hash of words, each little-endian.
pub fn hash_words(words: &[u32]) -> u64
    ensures { result ≡ hash_of (all_bytes words.now) }
{
    words.iter().fold(BASIS, |h, word| take_word(h, *word))
}
