// Single words.
ghost use Rattle.std.specs.Prelude.{◌≡◌, ◌≤◌, ◌&&◌, nat_le, map, length, IfOk, IfSome};
ghost use Rattle.std.specs.List.{list_all};
ghost use Rattle.std.specs.Char.{is_ascii_digit};
ghost use Rattle.std.specs.String.{string_bytes};
ghost use Rattle.bl_commands.specs.Commands.{is_file_word, is_name_word, are_names, decimal_word, keeper_word, keepers_of, keeper_words, width_word, order_word, head_word};
ghost use Rattle.bl_words.specs.Numbers.{capped_number};

use bl_commands::{HeadForm, Keeper, Word};
use bl_num::{Items, NoMemory, Order, Width};
use std::alloc::Global;

/// The greatest length of a word that names a file, in bytes.
const LONGEST_FILE_WORD: usize = 1023;

/// Whether a word names a file. A name that ends in `.bl-part` is kept for files that are being
/// written.
pub fn is_file_word(word: &str) -> bool
    ensures { result ≡ is_file_word word.now }
{
    let bytes = word.as_bytes();
    !bytes.is_empty()
        && bytes.len() <= LONGEST_FILE_WORD
        && !bytes.contains(&0)
        && !bytes.ends_with(b".bl-part")
}

// Whether words are one or more full names.
pub fn are_names(words: &[String]) -> bool
    ensures { result ≡ are_names (map string_bytes words.now) }
{
    !words.is_empty() && have_bytes(words)
}

// Whether each word has a byte.
fn have_bytes(words: &[String]) -> bool
    ensures { result ≡ list_all is_name_word (map string_bytes words.now) }
{
    words.iter().all(|word| !word.is_empty())
}

// Copies of words.
pub fn copies(alloc: Global, words: &[String]) -> Result<Items<Word>, NoMemory>
    ensures { IfOk result (λ copies. copies ≡ map string_bytes words.now) }
{
    let mut copies = Vec::new(alloc);
    for word in words {
        copies.push(Word::from_str(alloc, word.as_str())?)?;
    }
    Ok(Items::from_vec(copies))
}

// The number that a word spells in decimal digits, where it is at most so great.
#[tactic(auto, using(crate::proofs::NumberLemmas::number_found), unfolding(bl_commands::specs::Commands::decimal_word))]
pub fn decimal_word(greatest: u64, word: &str) -> Option<u64>
    ensures number { result ≡ decimal_word greatest word.now }
    ensures within { IfSome result (λ number. number ≤ greatest) }
{
    let digits = word.as_bytes();
    let number = capped_number(greatest, digits);
    if are_digits(digits) && number <= u128::from(greatest) {
        Some(number as u64)
    } else {
        None
    }
}

// Whether a text is one or more digits.
fn are_digits(text: &[u8]) -> bool
    ensures { result ≡ (nat_le 1 (length text.now) && list_all is_ascii_digit text.now) }
{
    !text.is_empty() && has_digits_alone(text)
}

fn has_digits_alone(text: &[u8]) -> bool
    ensures { result ≡ list_all is_ascii_digit text.now }
{
    text.iter().all(|byte| byte.is_ascii_digit())
}

// The number that digits spell. All that are greater than a limit give the first one that is.
fn capped_number(greatest: u64, digits: &[u8]) -> u128
    ensures { result ≡ capped_number greatest digits.now }
{
    let mut number = 0;
    for digit in digits {
        let next = 10 * number + u128::from(digit.saturating_sub(b'0'));
        number = next.min(u128::from(greatest) + 1);
    }
    number
}

// What keeps datablocks by a word: `fake`, `other`, or a code of two bytes.
#[tactic(auto, unfolding(bl_commands::specs::Commands::keeper_word))]
fn keeper_word(word: &str) -> Option<Keeper>
    ensures { result ≡ keeper_word word.now }
{
    match word.as_bytes() {
        b"fake" => Some(Keeper::Fake),
        b"other" => Some(Keeper::Other),
        [first, second] if is_code_byte(*first) && is_code_byte(*second) => {
            Some(Keeper::Code([*first, *second]))
        }
        _ => None,
    }
}

fn is_code_byte(byte: u8) -> bool
    ensures { result ≡ (nat_le 0x21 byte && nat_le byte 0x7e) }
{
    (0x21..=0x7e).contains(&byte)
}

// What keeps datablocks by one word or more, where each word says that.
pub fn keeper_words(alloc: Global, words: &[String]) -> Result<Option<Items<Keeper>>, NoMemory>
    ensures { IfOk result (λ keepers. keepers ≡ keeper_words (map string_bytes words.now)) }
{
    if words.is_empty() {
        return Ok(None);
    }
    keepers_of(alloc, words)
}

// What keeps datablocks by words, where each word says that.
fn keepers_of(alloc: Global, words: &[String]) -> Result<Option<Items<Keeper>>, NoMemory>
    ensures { IfOk result (λ keepers. keepers ≡ keepers_of (map string_bytes words.now)) }
{
    let mut keepers = Vec::new(alloc);
    for word in words {
        match keeper_word(word.as_str()) {
            Some(keeper) => keepers.push(keeper)?,
            None => return Ok(None),
        }
    }
    Ok(Some(Items::from_vec(keepers)))
}

// How many bytes a pointer is to take, by a word.
pub fn width_word(word: &str) -> Option<Width>
    ensures { result ≡ width_word word.now }
{
    if word == "4" {
        Some(Width::Four)
    } else if word == "8" {
        Some(Width::Eight)
    } else {
        None
    }
}

// Which byte of a number is to come first, by a word.
pub fn order_word(word: &str) -> Option<Order>
    ensures { result ≡ order_word word.now }
{
    if word == "little" {
        Some(Order::Little)
    } else if word == "big" {
        Some(Order::Big)
    } else {
        None
    }
}

// Which form heads are to have, by a word.
pub fn head_word(word: &str) -> Option<HeadForm>
    ensures { result ≡ head_word word.now }
{
    if word == "classic" {
        Some(HeadForm::Classic)
    } else if word == "wide" {
        Some(HeadForm::Wide)
    } else {
        None
    }
}
