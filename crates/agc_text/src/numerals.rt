//! Numbers as text, at the end of a text of bounded length.
ghost use Rattle.std.specs.Prelude.{◌≡◌, ◌+◌, ◌*◌, ◌%◌, ◌<◌, ◌≤◌, ◌^◌, [], ◌∷◌, ◌++◌, length};
ghost use Rattle.std.specs.Fmt.{decimal};
ghost use Rattle.agc_text.specs.Numbers.{octal};
ghost use Rattle.agc_text.specs.Replies.{word_text, words_text};

use agc_word::Word;
use arrayvec::ArrayString;

/// Appends a digit to those of a number.
fn add_digit(digits: &mut ArrayString<20>, digit: u8)
    requires digit { digit < 10 }
    requires room { length digits.old.bytes < 20 }
    ensures text { digits.new.bytes ≡ digits.old.bytes ++ (48 + digit) ∷ [] }
    ensures len { length digits.new.bytes ≡ length digits.old.bytes + 1 }
{
    digits.push(char::from(b'0' + digit));
}

/// The last octal digit of a number.
pub(crate) fn octal_digit(number: u16) -> u8
    ensures { result ≡ 48 + number % 8 }
{
    b'0' + (number % 8) as u8
}

/// Appends the last octal digit of a number.
pub fn add_octal_digit<const N: usize>(text: &mut ArrayString<N>, number: u16)
    requires { length text.old.bytes < N }
    ensures text { text.new.bytes ≡ text.old.bytes ++ (48 + number % 8) ∷ [] }
    ensures len { length text.new.bytes ≡ length text.old.bytes + 1 }
{
    text.push(char::from(octal_digit(number)));
}

/// Appends a number in decimal to the digits of one.
fn add_digits(digits: &mut ArrayString<20>, number: u64)
    requires { length digits.old.bytes + length (decimal number) ≤ 20 }
    ensures text { digits.new.bytes ≡ digits.old.bytes ++ decimal number }
    ensures len { length digits.new.bytes ≡ length digits.old.bytes + length (decimal number) }
{
    if number >= 10 {
        add_digits(digits, number / 10);
    }
    add_digit(digits, (number % 10) as u8);
}

/// Appends a number in decimal, of at most twenty digits.
#[tactic(auto, using(crate::proofs::Digits::decimal_short))]
pub fn add_number<const N: usize>(text: &mut ArrayString<N>, number: u64)
    requires { length text.old.bytes + 20 ≤ N }
    ensures text { text.new.bytes ≡ text.old.bytes ++ decimal number }
    ensures len { length text.new.bytes ≤ length text.old.bytes + 20 }
{
    let mut digits = ArrayString::new();
    add_digits(&mut digits, number);
    text.push_str(digits.as_str());
}

/// Appends a priority's two octal digits.
pub fn add_priority<const N: usize>(text: &mut ArrayString<N>, priority: u16)
    requires { length text.old.bytes + 2 ≤ N }
    ensures text { text.new.bytes ≡ text.old.bytes ++ octal 2 priority }
    ensures len { length text.new.bytes ≡ length text.old.bytes + 2 }
{
    add_octal_digit(text, priority / 8);
    add_octal_digit(text, priority);
}

/// Appends a word's five octal digits.
pub fn add_word<const N: usize>(text: &mut ArrayString<N>, word: u16)
    requires { length text.old.bytes + 5 ≤ N }
    ensures text { text.new.bytes ≡ text.old.bytes ++ octal 5 word }
    ensures len { length text.new.bytes ≡ length text.old.bytes + 5 }
{
    // one after the other, and no recursion, which would cost as much again
    add_octal_digit(text, word / 8 / 8 / 8 / 8);
    add_octal_digit(text, word / 8 / 8 / 8);
    add_octal_digit(text, word / 8 / 8);
    add_octal_digit(text, word / 8);
    add_octal_digit(text, word);
}

/// Appends words, each after a space.
pub(crate) fn add_words(line: &mut ArrayString<128>, words: &[Word])
    requires { length line.old.bytes + 6 * length words.now ≤ 128 }
    ensures text { line.new.bytes ≡ line.old.bytes ++ words_text words.now }
    ensures len { length line.new.bytes ≡ length line.old.bytes + 6 * length words.now }
{
    for word in words {
        line.push(' ');
        add_word(line, word.bits());
    }
}
