//! The words of a command in one text, each with a zero byte behind it.

ghost use Rattle.std.specs.Prelude.{◌≡◌, ◌⊎◌, ◌∷◌, ℕ, List, map, string_bytes, IfOk, IfErr, OnOk};
ghost use Rattle.std.specs.Prelude.{IsUtf8, ◌++◌, []};
ghost use Rattle.walrus_c.specs.Words.{AreWords, AreNoWords};
ghost use Rattle.walrus_c.specs.inside.Reading.{ReadSoFar};

use std::alloc::Global;
use wal_run::NO_MEMORY;

/// The status of a text that is no words.
pub const NO_WORDS: u8 = 11;

/// The words of the text, or the status that tells why there are none.
pub fn words_of(alloc: Global, text: &[u8]) -> Result<Vec<String>, u8>
    ensures words { IfOk result (λ words. AreWords (map string_bytes words.items) text.now) }
    ensures refused { IfErr result
        (λ status. (status ≡ 5) ⊎ ((status ≡ 11) × AreNoWords text.now)) }
{
    let mut words = Vec::new(alloc);
    let mut word = Vec::new(alloc);
    let mut done = 0;
    'bytes: while done < text.len() {
        if let Err(status) = take_byte(alloc, &mut words, &mut word, text[done]) {
            return Err(status);
        }
        done += 1;
    }
    if word.is_empty() {
        Ok(words)
    } else {
        Err(NO_WORDS)
    }
}

// Takes a byte more: of the word that is being read, or its end.
fn take_byte(alloc: Global, words: &mut Vec<String>, word: &mut Vec<u8>, byte: u8) -> Result<(), u8>
    ensures goes_on { OnOk result ((left text : List ℕ)
        → ReadSoFar (map string_bytes words.old.items) word.old.items (byte ∷ left) text
        → ReadSoFar (map string_bytes words.new.items) word.new.items left text) }
    ensures refused { IfErr result (λ status. (status ≡ 5) ⊎ ((status ≡ 11) × ((left text : List ℕ)
        → ReadSoFar (map string_bytes words.old.items) word.old.items (byte ∷ left) text
        → AreNoWords text))) }
{
    if byte == 0 {
        return match add_word(alloc, words, word) {
            Ok(()) => {
                word.clear();
                Ok(())
            }
            Err(status) => Err(status),
        };
    }
    match word.push(byte) {
        Ok(()) => Ok(()),
        Err(_) => Err(NO_MEMORY),
    }
}

// Puts one more word behind the others.
fn add_word(alloc: Global, words: &mut Vec<String>, word: &[u8]) -> Result<(), u8>
    ensures added { OnOk result
        ((map string_bytes words.new.items ≡ map string_bytes words.old.items ++ word.now ∷ [])
        × IsUtf8 word.now) }
    ensures refused { IfErr result
        (λ status. (status ≡ 5) ⊎ ((status ≡ 11) × (IsUtf8 word.now → ⊥))) }
{
    let Ok(text) = std::str::from_utf8(word) else {
        return Err(NO_WORDS);
    };
    let Ok(text) = String::from_str(alloc, text) else {
        return Err(NO_MEMORY);
    };
    if words.push(text).is_ok() {
        Ok(())
    } else {
        Err(NO_MEMORY)
    }
}
