//! The text of a saved chip, and the chip that a text is.
ghost use Rattle.std.specs.Prelude.{◌≡◌, ◌≤◌, ◌<◌, ◌+◌, ◌*◌, ℕ, IfOk, IfErr, OnOk, length, slice_index, take, drop};
ghost use Rattle.std.specs.Int.{from_le_bytes, to_le_bytes, w64};
ghost use Rattle.ccan_line.specs.Limits.{most_nodes};
ghost use Rattle.ccan_registers.specs.declared.saved.chip.Saved.{Saved};
ghost use Rattle.ccan_registers.specs.Format.{AreWords, IsSaved, bytes_in, format_length, format_version, format_words, text_of, words_of};
ghost use Rattle.ccan_registers.specs.FormatError.{HasHead, Tells};

use crate::saved::chip::Saved;
use crate::saved::format_error::FormatError;
use crate::saved::words::{NAME, VERSION, WORDS, saved_in, words_of};

/// How many bytes the text of a saved chip has.
pub const LENGTH: usize = 1672;

/// The text of a saved chip: words of 64 bits, the lowest byte of each first.
pub fn to_bytes(saved: &Saved) -> [u8; LENGTH]
    ensures text { result ≡ text_of saved.now }
    ensures fits { AreWords (words_of saved.now) }
{
    bytes_of(&words_of(saved))
}

/// The saved chip that has this text.
pub fn from_bytes(bytes: &[u8]) -> Result<Saved, FormatError>
    ensures found { IfOk result (λ saved. text_of saved ≡ bytes.now) }
    ensures few { IfOk result (λ saved. saved.others ≤ most_nodes) }
    ensures only { (saved : Saved) → IsSaved saved → AreWords (words_of saved)
        → text_of saved ≡ bytes.now → result ≡ Ok saved }
    ensures why { IfErr result (Tells bytes.now) }
{
    check_head(bytes)?;
    match saved_in(&words_in(bytes)) {
        Ok(saved) => Ok(saved),
        Err(field) => Err(FormatError::Range(field)),
    }
}

/// The bytes of some words.
fn bytes_of(words: &[u64; WORDS]) -> [u8; LENGTH]
    ensures text { result ≡ bytes_in words.now }
    ensures fits { AreWords words.now }
{
    let mut bytes = [0; LENGTH];
    for (k, word) in words.iter().enumerate() {
        bytes[8 * k..8 * k + 8].copy_from_slice(&word.to_le_bytes());
    }
    bytes
}

/// The word at an index of a text.
fn word_at(bytes: &[u8], place: usize) -> u64
    requires { 8 * place + 8 ≤ length bytes.now }
    ensures text { to_le_bytes w64 result ≡ take 8 (drop (8 * place) bytes.now) }
    ensures value { result ≡ from_le_bytes w64 (take 8 (drop (8 * place) bytes.now)) }
{
    let mut word = [0; 8];
    word.copy_from_slice(&bytes[8 * place..8 * place + 8]);
    u64::from_le_bytes(word)
}

/// The words of a text.
fn words_in(bytes: &[u8]) -> [u64; WORDS]
    requires { length bytes.now ≡ format_length }
    ensures text { bytes_in result ≡ bytes.now }
    ensures each { (k : ℕ) → k < format_words
        → slice_index result k ≡ from_le_bytes w64 (take 8 (drop (8 * k) bytes.now)) }
{
    let mut words = [0; WORDS];
    for k in 0..WORDS {
        words[k] = word_at(bytes, k);
    }
    words
}

/// Whether a text begins as a saved chip's does, and is as long.
fn check_head(bytes: &[u8]) -> Result<(), FormatError>
    ensures ok { OnOk result
        (HasHead bytes.now format_version × (length bytes.now ≡ format_length)) }
    ensures why { IfErr result (Tells bytes.now) }
    ensures only { HasHead bytes.now format_version → length bytes.now ≡ format_length
        → result ≡ Ok tt }
{
    if bytes.len() < 16 {
        return Err(FormatError::Length(bytes.len()));
    }
    if word_at(bytes, 0) != NAME {
        return Err(FormatError::Name);
    }
    let version = word_at(bytes, 1);
    if version != VERSION {
        return Err(FormatError::Version(version));
    }
    if bytes.len() == LENGTH {
        Ok(())
    } else {
        Err(FormatError::Length(bytes.len()))
    }
}
