// Options: two words each, in any order, each at most once.
ghost use Rattle.std.specs.Prelude.{◌≡◌, ◌&&◌, map, option_map, option_and_then, codes, IfOk};
ghost use Rattle.std.specs.Str.{bytes_eq};
ghost use Rattle.std.specs.String.{string_bytes};
ghost use Rattle.bl_commands.specs.Commands.{option_given, is_option, are_options, convert_switches, convert_options, asks_for_no_head, width_word, order_word, head_word};
ghost use Rattle.bl_words.specs.Options.{switches_of};

use crate::words::{head_word, is_file_word, order_word, width_word};
use bl_commands::{ConvertOptions, HeadForm, Word};
use bl_num::{NoMemory, Order, Width};
use std::alloc::Global;

/// A command with options.
#[derive(Clone, Copy)]
pub enum Taker {
    Convert,
    Fates,
}

// Whether a command has an option of this name that takes this value.
fn is_option(taker: Taker, name: &str, value: &str) -> bool
    ensures { result ≡ is_option (switches_of taker) name.now value.now }
{
    match taker {
        Taker::Convert => is_convert_option(name, value),
        Taker::Fates => is_taken("--renames", name, is_file_word(value)),
    }
}

fn is_convert_option(name: &str, value: &str) -> bool
    ensures { result ≡ is_option convert_switches name.now value.now }
{
    is_taken("--like", name, is_file_word(value))
        || is_taken("--width", name, width_word(value).is_some())
        || is_taken("--order", name, order_word(value).is_some())
        || is_taken("--head", name, head_word(value).is_some())
        || is_taken("--renames", name, is_file_word(value))
}

// Whether a name is that of an option that takes the value.
fn is_taken(option: &str, name: &str, takes: bool) -> bool
    ensures { result ≡ (bytes_eq option.now name.now && takes) }
{
    option == name && takes
}

// The value of the first option of this name.
#[tactic(auto, unfolding(bl_commands::specs::Commands::option_given))]
pub fn option_given<'a>(name: &str, words: &'a [String]) -> Option<&'a str>
    ensures { option_map (λ value. value.now) result ≡ option_given name.now (map string_bytes words.now) }
{
    let mut rest = words;
    while let Some((first, behind)) = rest.split_first() {
        let Some((value, others)) = behind.split_first() else {
            return None;
        };
        if first.as_str() == name {
            return Some(value.as_str());
        }
        rest = others;
    }
    None
}

// Whether words are options that a command has, no two of one name. There are few names, so only a
// few options are looked at before one of them is refused.
#[tactic(auto, unfolding(bl_commands::specs::Commands::are_options))]
pub fn are_options(taker: Taker, words: &[String]) -> bool
    ensures { result ≡ are_options (switches_of taker) (map string_bytes words.now) }
{
    let mut rest = words;
    while let Some((name, behind)) = rest.split_first() {
        let Some((value, others)) = behind.split_first() else {
            return false;
        };
        if !is_option(taker, name.as_str(), value.as_str())
            || option_given(name.as_str(), others).is_some()
        {
            return false;
        }
        rest = others;
    }
    true
}

// A copy of the value of the option that tells of renames.
pub fn renames_given(alloc: Global, words: &[String]) -> Result<Option<Word>, NoMemory>
    ensures { IfOk result (λ word. word ≡ option_given (codes "--renames") (map string_bytes words.now)) }
{
    word_given(alloc, "--renames", words)
}

// A copy of the value of the first option of this name.
fn word_given(alloc: Global, name: &str, words: &[String]) -> Result<Option<Word>, NoMemory>
    ensures { IfOk result (λ word. word ≡ option_given name.now (map string_bytes words.now)) }
{
    match option_given(name, words) {
        Some(value) => Ok(Some(Word::from_str(alloc, value)?)),
        None => Ok(None),
    }
}

fn width_given(words: &[String]) -> Option<Width>
    ensures { result ≡ option_and_then width_word (option_given (codes "--width") (map string_bytes words.now)) }
{
    match option_given("--width", words) {
        Some(value) => width_word(value),
        None => None,
    }
}

fn order_given(words: &[String]) -> Option<Order>
    ensures { result ≡ option_and_then order_word (option_given (codes "--order") (map string_bytes words.now)) }
{
    match option_given("--order", words) {
        Some(value) => order_word(value),
        None => None,
    }
}

fn head_given(words: &[String]) -> Option<HeadForm>
    ensures { result ≡ option_and_then head_word (option_given (codes "--head") (map string_bytes words.now)) }
{
    match option_given("--head", words) {
        Some(value) => head_word(value),
        None => None,
    }
}

// What the options of `convert` give.
pub fn convert_options(alloc: Global, words: &[String]) -> Result<ConvertOptions, NoMemory>
    ensures { IfOk result (λ options. options ≡ convert_options (map string_bytes words.now)) }
{
    Ok(ConvertOptions {
        like: word_given(alloc, "--like", words)?,
        width: width_given(words),
        order: order_given(words),
        head: head_given(words),
        renames: renames_given(alloc, words)?,
    })
}

// Whether no head has the form that is asked for: wide heads have pointers of 8 bytes, and the
// lowest byte first.
pub fn asks_for_no_head(options: &ConvertOptions) -> bool
    ensures { result ≡ asks_for_no_head options.now }
{
    matches!(options.head, Some(HeadForm::Wide))
        && (matches!(options.width, Some(Width::Four)) || matches!(options.order, Some(Order::Big)))
}
