// Which command the words of a command line spell.
use bl_num::NoMemory;
use bl_words::{Command, command_of, is_file_word};
use std::alloc::Global;

/// Words as a command line gives them.
pub fn words(alloc: Global, all: &[&str]) -> Result<Vec<String>, NoMemory> {
    let mut words = Vec::new(alloc);
    for word in all {
        words.push(String::from_str(alloc, word)?)?;
    }
    Ok(words)
}

// Words that stand with one blank between each two.
fn split_words(alloc: Global, text: &str) -> Result<Vec<String>, NoMemory> {
    let mut words = Vec::new(alloc);
    for word in text.split(' ') {
        words.push(String::from_str(alloc, word)?)?;
    }
    Ok(words)
}

// What is told of a command.
fn told(alloc: Global, command: &Option<Command>) -> Result<String, NoMemory> {
    Ok(format!(in alloc; "{command:?}")?)
}

// What words spell.
fn spelled(alloc: Global, text: &str) -> Result<String, NoMemory> {
    let words = split_words(alloc, text)?;
    let command = command_of(alloc, &words)?;
    told(alloc, &command)
}

fn is_spelled(alloc: Global, text: &str, want: &str) -> Result<bool, NoMemory> {
    let told = spelled(alloc, text)?;
    Ok(told.as_str() == want)
}

#[test]
fn spell_commands(rt: HostRuntime) {
    for (words, want) in [
        (
            "convert a b",
            "Some(Convert { input: Word { text: \"a\" }, out: Word { text: \"b\" }, options: ConvertOptions { like: None, width: None, order: None, head: None, renames: None } })",
        ),
        (
            "convert a b --renames r --head wide --width 8 --like --like --order little",
            "Some(Convert { input: Word { text: \"a\" }, out: Word { text: \"b\" }, options: ConvertOptions { like: Some(Word { text: \"--like\" }), width: Some(Eight), order: Some(Little), head: Some(Wide), renames: Some(Word { text: \"r\" }) } })",
        ),
        (
            "convert a b --head classic --order big --width 4",
            "Some(Convert { input: Word { text: \"a\" }, out: Word { text: \"b\" }, options: ConvertOptions { like: None, width: Some(Four), order: Some(Big), head: Some(Classic), renames: None } })",
        ),
        (
            "append a b c OBx OBx",
            "Some(Append { into: Word { text: \"a\" }, lib: Word { text: \"b\" }, out: Word { text: \"c\" }, names: Items { items: [Word { text: \"OBx\" }, Word { text: \"OBx\" }] } })",
        ),
        (
            "link a b a .bl-part",
            "Some(Link { into: Word { text: \"a\" }, lib: Word { text: \"b\" }, out: Word { text: \"a\" }, names: Items { items: [Word { text: \".bl-part\" }] } })",
        ),
        (
            "resolve a b",
            "Some(Resolve { input: Word { text: \"a\" }, out: Word { text: \"b\" } })",
        ),
        (
            "recount a a",
            "Some(Recount { input: Word { text: \"a\" }, out: Word { text: \"a\" } })",
        ),
        (
            "make 018446744073709551615 0001000000 f",
            "Some(Make { seed: 18446744073709551615, n: 1000000, out: Word { text: \"f\" } })",
        ),
        (
            "make 0 00 f",
            "Some(Make { seed: 0, n: 0, out: Word { text: \"f\" } })",
        ),
        (
            "schema --like",
            "Some(Schema { input: Word { text: \"--like\" } })",
        ),
        (
            "fates a b",
            "Some(Fates { input: Word { text: \"a\" }, cat: Word { text: \"b\" }, renames: None })",
        ),
        (
            "fates a b --renames r",
            "Some(Fates { input: Word { text: \"a\" }, cat: Word { text: \"b\" }, renames: Some(Word { text: \"r\" }) })",
        ),
        ("list a", "Some(List { input: Word { text: \"a\" } })"),
        (
            "query a OBx a[3].b_1[012345678]->_c",
            "Some(Query { input: Word { text: \"a\" }, name: Word { text: \"OBx\" }, path: Word { text: \"a[3].b_1[012345678]->_c\" } })",
        ),
        (
            "dump a 1",
            "Some(Dump { input: Word { text: \"a\" }, kind: 1 })",
        ),
        (
            "dump a 0255",
            "Some(Dump { input: Word { text: \"a\" }, kind: 255 })",
        ),
        (
            "edit a b c",
            "Some(Edit { input: Word { text: \"a\" }, script: Word { text: \"b\" }, out: Word { text: \"c\" } })",
        ),
        (
            "purge f g other OB fake",
            "Some(Purge { input: Word { text: \"f\" }, out: Word { text: \"g\" }, keepers: Items { items: [Other, Code([79, 66]), Fake] } })",
        ),
        (
            "unused f !~",
            "Some(Unused { input: Word { text: \"f\" }, keepers: Items { items: [Code([33, 126])] } })",
        ),
        (
            "split b b l x y",
            "Some(Split { input: Word { text: \"b\" }, out: Word { text: \"b\" }, lib: Word { text: \"l\" }, names: Items { items: [Word { text: \"x\" }, Word { text: \"y\" }] } })",
        ),
    ] {
        assert_eq!(rt; is_spelled(rt.alloc(), words, want), Ok(true));
    }
}

#[test]
fn spell_no_command(rt: HostRuntime) {
    for words in [
        "",
        "lists a",
        "convert a",
        "convert a b.bl-part",
        "convert a b c",
        "convert a b --width 5",
        "convert a b --order big --order big",
        "convert a b --head",
        "convert a b --head wide --width 4",
        "convert a b --order big --head wide",
        "append a b c",
        "append a b c ",
        "link a b  x",
        "resolve a",
        "recount a b c",
        "make 18446744073709551616 1 f",
        "make 1 1000001 f",
        "make -1 1 f",
        "schema a b",
        "fates a b --like r",
        "fates a b --renames r --renames r",
        "list ",
        "query a  b",
        "query a x a..b",
        "query a x a[1][2]",
        "query a x a[1234567890]",
        "query a x a->b>c",
        "query a x a-",
        "dump a 0",
        "dump a 256",
        "edit a b",
        "purge f g",
        "purge f g OB Object",
        "unused f",
        "split b o o x",
        "split b o b x",
        "split b o l",
    ] {
        assert_eq!(rt; is_spelled(rt.alloc(), words, "None"), Ok(true));
    }
    for (word, want) in [("a.blend", true), ("a.blend.bl-part", false), ("", false)] {
        assert_eq!(rt; is_file_word(word), want);
    }
}
