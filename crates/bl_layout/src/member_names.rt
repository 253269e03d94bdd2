ghost use Rattle.std.specs.Prelude.{IfOk, map, if◌then◌else◌, slice_index, ◌≡◌, ◌≤◌, ◌<◌, ◌+◌, ◌*◌, ◌^◌, ◌==◌, All, true, length, take, option_map};
ghost use Rattle.std.specs.List.{prefix_len};
ghost use Rattle.std.specs.Char.{is_ascii_digit};
ghost use Rattle.std.specs.Str.{byte};
ghost use Rattle.bl_format.specs.Layout.{name_of};
ghost use Rattle.bl_format.specs.Members.{member_name, other_name, plain_name, function_name, is_word_byte, number_in};
ghost use Rattle.bl_layout.specs.MemberNames.{name_parts, entry_of_name, shape_of_name, bounded_count, bounded_shape, bracket_count, opens_number};

use bl_format::Catalogue;
use bl_num::Text;
use bl_sdna::member_name;
use std::alloc::{AllocError, Global};

/// The most elements that a member may have.
pub const MAX_ELEMENTS: u32 = 2_147_483_647;

// The most digits between brackets.
const MAX_DIGITS: usize = 9;

/// Where the parts of a member's name stand in it, and how many elements it gives.
#[derive(Clone, Copy)]
pub struct NameShape {
    pub pointer: bool,
    pub depth: usize,
    pub identifier_at: usize,
    pub identifier_len: usize,
    pub key_len: usize,
    pub brackets: bool,
    pub count: u32,
}

/// What a name says; one of neither form says only whether it makes a pointer.
#[derive(Clone, Copy)]
pub struct NameEntry {
    pub shape: NameShape,
    pub is_good: bool,
}

/// What each name says.
pub fn name_entries(alloc: Global, names: &[Text]) -> Result<Vec<NameEntry>, AllocError>
    ensures { IfOk result (λ entries. entries.items ≡ map entry_of_name names.now) }
{
    names
        .iter()
        .map(|name| entry_of_name(name.as_slice()))
        .collect(alloc)
}

fn entry_of_name(name: &[u8]) -> NameEntry
    ensures { result ≡ entry_of_name name.now }
{
    match name_shape(name) {
        Some(shape) => NameEntry {
            shape,
            is_good: true,
        },
        None => NameEntry {
            shape: other_shape(name),
            is_good: false,
        },
    }
}

// The shape of a name of no form.
fn other_shape(name: &[u8]) -> NameShape
    ensures { result ≡ shape_of_name (other_name name.now) }
{
    NameShape {
        pointer: name.starts_with(b"*") || name.starts_with(b"(*"),
        depth: 0,
        identifier_at: 0,
        identifier_len: 0,
        key_len: 0,
        brackets: false,
        count: 0,
    }
}

/// The identifier in a name, by what the name says.
pub fn identifier_in(name: &[u8], shape: NameShape) -> &[u8]
    requires { shape ≡ shape_of_name (name_parts name.now) }
    ensures { result.now ≡ (name_parts name.now).identifier }
{
    &name[shape.identifier_at..shape.identifier_at + shape.identifier_len]
}

/// The identifier in a member's name, and nothing where there is no member of the numbers or its name
/// has no form.
#[tactic(auto, unfolding(bl_format::specs::Layout::name_of))]
pub fn member_identifier(catalogue: &Catalogue, s: u32, member: u32) -> &[u8]
    ensures { result.now ≡ (name_of catalogue.now s member).identifier }
{
    let name = member_name(catalogue, s, member);
    identifier_in(name, entry_of_name(name).shape)
}

/// The key in a name, by what the name says.
pub fn key_in(name: &[u8], shape: NameShape) -> &[u8]
    requires { shape ≡ shape_of_name (name_parts name.now) }
    ensures { result.now ≡ (name_parts name.now).key }
{
    &name[..shape.key_len]
}

/// The parts of a name of one of the two forms that a member's name may have.
#[tactic(auto, unfolding(bl_format::specs::Members::member_name))]
pub fn name_shape(name: &[u8]) -> Option<NameShape>
    ensures { result ≡ option_map shape_of_name (member_name name.now) }
{
    let shape = any_shape(name)?;
    if shape.count <= MAX_ELEMENTS {
        Some(shape)
    } else {
        None
    }
}

// A name of either form, by the byte with which it begins.
fn any_shape(name: &[u8]) -> Option<NameShape>
    ensures { result ≡ option_map bounded_shape (if slice_index name.now 0 == byte "(" then function_name name.now else plain_name name.now) }
{
    if name.first().copied().unwrap_or(0) == b'(' {
        function_shape(name)
    } else {
        plain_shape(name)
    }
}

// A name of stars, an identifier and brackets.
fn plain_shape(name: &[u8]) -> Option<NameShape>
    ensures { result ≡ option_map bounded_shape (plain_name name.now) }
{
    let stars = star_count(name);
    let identifier_len = word_len(&name[stars..]);
    if identifier_len == 0 {
        return None;
    }
    let key_len = stars + identifier_len;
    let count = element_count(&name[key_len..])?;
    Some(NameShape {
        pointer: stars > 0,
        depth: stars,
        identifier_at: stars,
        identifier_len,
        key_len,
        brackets: key_len < name.len(),
        count,
    })
}

// A name of `(*`, an identifier, `)` and any bytes.
fn function_shape(name: &[u8]) -> Option<NameShape>
    ensures { result ≡ option_map bounded_shape (function_name name.now) }
{
    if !name.starts_with(b"(*") {
        return None;
    }
    let identifier_len = word_len(&name[2..]);
    if identifier_len == 0 || name.get(identifier_len + 2) != Some(&b')') {
        return None;
    }
    Some(NameShape {
        pointer: true,
        depth: 0,
        identifier_at: 2,
        identifier_len,
        key_len: name.len(),
        brackets: false,
        count: 1,
    })
}

// The product of the bracketed numbers that fill a text, one behind another. All products that
// pass the limit give the first one that does.
fn element_count(brackets: &[u8]) -> Option<u32>
    ensures { result ≡ bracket_count brackets.now }
{
    let mut rest = brackets;
    let mut count = 1;
    while let Some((first, digits)) = rest.split_first() {
        let len = digit_count(digits);
        if !opens_number(*first, digits, len) {
            return None;
        }
        count = capped_product(count, number_in(&digits[..len]));
        rest = &digits[len + 1..];
    }
    Some(count)
}

// Whether a byte opens the brackets round the digits behind it, of which there are `len`.
fn opens_number(first: u8, digits: &[u8], len: usize) -> bool
    requires { len ≡ prefix_len is_ascii_digit digits.now }
    ensures { result ≡ opens_number first digits.now }
{
    first == b'[' && len >= 1 && len <= MAX_DIGITS && digits.get(len) == Some(&b']')
}

// The product of two numbers, of which the first has passed the limit at most by one.
fn capped_product(count: u32, number: u64) -> u32
    requires capped { count ≤ MAX_ELEMENTS + 1 }
    requires small { number < 10 ^ 9 }
    ensures { result ≡ bounded_count (count * number) }
{
    (u64::from(count) * number).min(u64::from(MAX_ELEMENTS) + 1) as u32
}

// The number that at most nine digits spell.
fn number_in(digits: &[u8]) -> u64
    requires short { length digits.now ≤ MAX_DIGITS }
    requires digits { All (λ b. is_ascii_digit b ≡ true) digits.now }
    ensures number { result ≡ number_in digits.now }
    ensures small { result < 10 ^ 9 }
{
    let mut number = 0;
    for digit in digits {
        number = 10 * number + u64::from(*digit - b'0');
    }
    number
}

// How many bytes of identifiers a text begins with.
fn word_len(text: &[u8]) -> usize
    ensures len { result ≡ prefix_len is_word_byte text.now }
    ensures within { result ≤ length text.now }
{
    text.iter().take_while(|byte| is_word_byte(**byte)).count()
}

fn is_word_byte(byte: u8) -> bool
    ensures { result ≡ is_word_byte byte }
{
    byte.is_ascii_uppercase() || byte.is_ascii_lowercase() || byte.is_ascii_digit() || byte == b'_'
}

fn star_count(text: &[u8]) -> usize
    ensures len { result ≡ prefix_len (λ b. b == byte "*") text.now }
    ensures within { result ≤ length text.now }
{
    text.iter().take_while(|byte| **byte == b'*').count()
}

fn digit_count(text: &[u8]) -> usize
    ensures len { result ≡ prefix_len is_ascii_digit text.now }
    ensures within { result ≤ length text.now }
{
    text.iter().take_while(|byte| byte.is_ascii_digit()).count()
}
