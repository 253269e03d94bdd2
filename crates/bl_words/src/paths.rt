// Paths of queries: identifiers, each with one index or none, joined by `.` and `->`.
ghost use Rattle.std.specs.Prelude.{◌≡◌, ◌≤◌, ◌==◌, not, length};
ghost use Rattle.std.specs.List.{list_all, prefix_len, slice_split};
ghost use Rattle.std.specs.Char.{is_ascii_digit};
ghost use Rattle.bl_format.specs.Members.{is_word_byte};
ghost use Rattle.bl_words.specs.Paths.{is_bracket, opens_number};
ghost use Rattle.bl_commands.specs.Commands.{is_index, is_step, is_path, is_behind_dash, is_query_path};

/// The most digits between brackets.
const MOST_DIGITS: usize = 9;

// Whether a text is paths, joined by `->`.
#[tactic(auto, using(crate::proofs::PathLemmas::query_of_path))]
pub fn is_query_path(text: &[u8]) -> bool
    ensures { result ≡ is_query_path text.now }
{
    let len = dash_at(text);
    if len == text.len() {
        is_path(text)
    } else {
        is_path(&text[..len]) && are_behind_dashes(&text[len + 1..])
    }
}

// Where the first dash stands, or the length where there is none.
fn dash_at(text: &[u8]) -> usize
    ensures len { result ≡ prefix_len (λ b. not (b == 45)) text.now }
    ensures within { result ≤ length text.now }
{
    text.iter().take_while(|byte| **byte != b'-').count()
}

// Whether what stands between dashes is a `>` and a path each time.
fn are_behind_dashes(text: &[u8]) -> bool
    ensures { result ≡ list_all is_behind_dash (slice_split (λ b. b == 45) text.now) }
{
    text.split(|byte| *byte == b'-')
        .all(|behind| is_behind_dash(behind))
}

fn is_behind_dash(text: &[u8]) -> bool
    ensures { result ≡ is_behind_dash text.now }
{
    match text.split_first() {
        Some((first, path)) => *first == b'>' && is_path(path),
        None => false,
    }
}

#[tactic(auto, unfolding(bl_commands::specs::Commands::is_path))]
fn is_path(text: &[u8]) -> bool
    ensures { result ≡ is_path text.now }
{
    text.split(|byte| *byte == b'.').all(|step| is_step(step))
}

fn is_step(step: &[u8]) -> bool
    ensures { result ≡ is_step step.now }
{
    let len = word_len(step);
    len >= 1 && is_index(&step[len..])
}

// How many bytes of identifiers a text begins with.
fn word_len(text: &[u8]) -> usize
    ensures len { result ≡ prefix_len is_word_byte text.now }
    ensures within { result ≤ length text.now }
{
    text.iter().take_while(|byte| is_word_byte(**byte)).count()
}

fn is_word_byte(byte: u8) -> bool
    ensures { result ≡ is_word_byte byte }
{
    byte.is_ascii_uppercase() || byte.is_ascii_lowercase() || byte.is_ascii_digit() || byte == b'_'
}

// Whether a text is empty, or one number in brackets.
#[tactic(auto, using(crate::proofs::PathLemmas::index_is_bracket, crate::proofs::PathLemmas::nothing_is_index))]
fn is_index(text: &[u8]) -> bool
    ensures { result ≡ is_index text.now }
{
    match text.split_first() {
        Some((first, behind)) => is_bracket(*first, behind),
        None => true,
    }
}

// Whether a byte and the text behind it are one number in brackets.
fn is_bracket(first: u8, text: &[u8]) -> bool
    ensures { result ≡ is_bracket first text.now }
{
    let len = digit_count(text);
    opens_number(first, text, len) && text.len() <= len + 1
}

// Whether a byte opens the brackets round the digits behind it, of which there are `len`.
fn opens_number(first: u8, digits: &[u8], len: usize) -> bool
    ensures { result ≡ opens_number first digits.now len }
{
    first == b'[' && len >= 1 && len <= MOST_DIGITS && digits.get(len) == Some(&b']')
}

fn digit_count(text: &[u8]) -> usize
    ensures len { result ≡ prefix_len is_ascii_digit text.now }
    ensures within { result ≤ length text.now }
{
    text.iter().take_while(|byte| byte.is_ascii_digit()).count()
}
