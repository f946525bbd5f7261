//! What no clause can say: that stacks are made where memory is ample, and the stacks of real files.

use crate::{Stack, StackFault};
use dict_json::{DictFault, Dictionary, read_dictionary};
use std::alloc::{AllocError, Global};
use std::process::Abort;

/// The dictionary of a file.
fn dictionary(rt: &impl Abort, alloc: Global, text: &str) -> Result<Dictionary, AllocError> {
    assert!(rt; text.len() < 1 << 32);
    match read_dictionary(alloc, text.as_bytes()) {
        Ok(dictionary) => Ok(dictionary),
        Err(DictFault::Memory) => Err(AllocError),
        Err(_) => panic!(rt; "a file is no dictionary"),
    }
}

/// The stack of files, one a line. A match file's line begins with `match:`.
fn stack_of_lines(
    rt: &impl Abort,
    alloc: Global,
    lines: &str,
) -> Result<Result<Stack, StackFault>, AllocError> {
    let mut dictionaries = Vec::new(alloc);
    let mut word_files = Vec::new(alloc);
    for line in lines.split('\n') {
        let text = line.strip_prefix("match:");
        dictionaries.push(dictionary(rt, alloc, text.unwrap_or(line))?)?;
        word_files.push(text.is_none())?;
    }
    assert!(rt; dictionaries.len() <= 16 && word_files.len() == dictionaries.len());
    Ok(Stack::new(alloc, dictionaries, word_files))
}

/// A stack as a text: of each entry its strokes with their numbers, its text, the place of its dictionary and whether
/// it is a word; then the skipped keys of each dictionary, and the numbers of skipped keys, folded keys and strokes.
fn shown(rt: &impl Abort, alloc: Global, stack: &Stack) -> Result<String, AllocError> {
    let numbers = stack.stroke_numbers(alloc)?;
    let mut text = String::new(alloc);
    for entry in 0..stack.entry_count() {
        let strokes = stack.outline(entry).strokes();
        assert_eq!(rt; stack.find(strokes), Some(entry));
        for stroke in strokes {
            let number = numbers.number(*stroke).expect(rt, "a stroke of the stack");
            text.push_str(&format!(in alloc; "{}:{} ", stroke.code(), number)?)?;
        }
        let kind = if stack.words()[entry as usize] {
            "word"
        } else {
            "match"
        };
        text.push_str(&format!(in alloc;
            "{} {} {}, ",
            stack.translation(entry),
            stack.from_dictionary(entry),
            kind
        )?)?;
    }
    for dictionary in 0..stack.dictionary_count() {
        for key in stack.skipped(dictionary) {
            text.push_str(&format!(in alloc; "[{}] ", key.as_str())?)?;
        }
        text.push_str("; ")?;
    }
    text.push_str(&format!(in alloc;
        "{} {} {}",
        stack.skipped_total(),
        stack.folded_total(),
        numbers.count()
    )?)?;
    Ok(text)
}

#[test]
fn stacks_of_files(rt: HostRuntime) -> Result<(), AllocError> {
    let alloc = rt.alloc();
    // TEL has the code 133124 and KAT 524552, S- 2, T- 4, K- 8 and -S 1048576.
    let cases = [
        ("{}", "; 0 0 0"),
        // The text of the higher dictionary wins.
        (
            "{\"KAT\": \"cat\"}\n{\"KAT\": \"feline\", \"TEL\": \"tell\"}",
            "133124:0 tell 1 word, 524552:1 cat 0 word, ; ; 0 0 2",
        ),
        (
            "{\"KAT\": \"feline\", \"TEL\": \"tell\"}\n{\"KAT\": \"cat\"}",
            "133124:0 tell 0 word, 524552:1 feline 0 word, ; ; 0 0 2",
        ),
        // A match file supplies no words.
        (
            "{\"KAT\": \"cat\", \"TEL\": \"tell\"}\nmatch:{\"KAT/TEL\": \"cattle\"}",
            "133124:0 tell 0 word, 524552:1 cat 0 word, 524552:1 133124:0 cattle 1 match, ; ; 0 0 2",
        ),
        (
            "match:{\"KAT/TEL\": \"cattle\"}",
            "524552:0 133124:1 cattle 0 match, ; 0 0 2",
        ),
        // What a match file has is a word where a word file below or above it has it too.
        (
            "match:{\"KAT\": \"cat\"}\n{\"KAT\": \"feline\"}",
            "524552:0 cat 0 word, ; ; 0 0 1",
        ),
        (
            "{\"KAT\": \"cat\"}\nmatch:{\"KAT\": \"feline\", \"TEL\": \"tell\"}",
            "133124:0 tell 1 match, 524552:1 cat 0 word, ; ; 0 0 2",
        ),
        // Keys of one file that name one thing.
        (
            "{\"-S\": \"a\", \"S-S\": \"b\", \"STS\": \"c\", \"ST-S\": \"d\"}",
            "1048576:0 a 0 word, 1048578:1 b 0 word, 1048582:2 c 0 word, ; 0 1 3",
        ),
        // Keys that spell nothing, in one file and in two.
        (
            "{\"UE\": \"x\", \"-\": \"y\", \"\": \"z\", \"S//T\": \"q\", \"KAT\": \"cat\"}",
            "524552:0 cat 0 word, [] [-] [S//T] [UE] ; 4 0 1",
        ),
        (
            "{\"UE\": \"x\", \"K\": \"k\", \"K-\": \"k\"}\n{\"-\": \"x\", \"S\": \"s\", \"S-\": \"s\"}",
            "2:0 s 1 word, 8:1 k 0 word, [UE] ; [-] ; 2 2 2",
        ),
    ];
    for (files, expected) in cases {
        let Ok(stack) = stack_of_lines(&rt, alloc, files)? else {
            return Err(AllocError);
        };
        assert_eq!(rt; shown(&rt, alloc, &stack)?.as_str(), expected, "of {files}");
    }
    Ok(())
}
