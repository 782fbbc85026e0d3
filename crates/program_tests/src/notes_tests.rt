//! What is said on standard error at the end.

use crate::fixtures::{
    DOCUMENT, FIRST, FIRST_TRANSCRIPT, LENGTH, NOT_KEPT, POLICY, VALUE, words_of,
};
use audit_command::{Answer, audit_answer};
use ipb_base::NoMemory;
use ipbus_program::{DONE, NO_MEMORY, NOT_ALL_DONE, READ_FAULT, REFUSED, USAGE, WRITE_FAULT};
use operator_notes::{Command, Ending, closing_notes, command_of};
use std::alloc::Global;

/// Values for two registers.
const GIVEN: &str = "[state.b0]\n\"a\" = 9\n\"b\" = 1\n";

/// These lines, one below the other.
fn joined(alloc: Global, notes: &[String]) -> Result<String, NoMemory> {
    let mut text = String::new(alloc);
    for note in notes {
        text.push_str(note.as_str())?;
        text.push('\n')?;
    }
    Ok(text)
}

/// How the program ends: the status, the words, what stands in front of a text in the input, the text, what stands behind
/// it, and the output, if it was kept.
type End = (u8, &'static str, [&'static str; 3], Option<&'static str>);

fn bytes_of(text: Option<&str>) -> Option<&[u8]> {
    match text {
        Some(text) => Some(text.as_bytes()),
        None => None,
    }
}

/// What an audit says of its input beside its answer.
fn notes_of_audit(alloc: Global, input: &[u8]) -> Result<Vec<String>, NoMemory> {
    let Answer { notes, .. } = audit_answer(alloc, input)?;
    notes.finish()
}

fn notes_of(alloc: Global, end: End) -> Result<Vec<String>, NoMemory> {
    let (status, words, [front, text, behind], output) = end;
    let words = words_of(alloc, words)?;
    let command = command_of(alloc, words.as_slice())?;
    let input = format!(in alloc; "{front}{text}{behind}")?;
    if let Some(Command::Audit) = command {
        return notes_of_audit(alloc, input.as_bytes());
    }
    let ending = Ending {
        status,
        words: words.as_slice(),
        command: command.as_ref(),
        given: Some(input.as_bytes()),
        written: bytes_of(output),
    };
    closing_notes(alloc, ending)
}

/// Whether this is said at an end.
fn is_said(alloc: Global, end: End, wanted: &str) -> Result<bool, NoMemory> {
    Ok(joined(alloc, &notes_of(alloc, end)?)?.as_str() == wanted)
}

/// A policy that allows nothing.
const NO_RULES: &str = "policy = []\n";

/// Transcripts of the first document: one that is cut, and one with another place, with another word, and with another
/// count.
const CUT: &str = "client 1\n1 read b0:id = 0x0000abcd @1.1\n";

const ANOTHER_PLACE: &str =
    "client 1\n1 read b0:id = 0x0000abcd @2.1\nboard b0 places 1 replied 1 timeout 0 lost 0\n";

const ANOTHER_WORD: &str =
    "client 1\n1 read b0:id = 0x0000abce @1.1\nboard b0 places 1 replied 1 timeout 0 lost 0\n";

const ANOTHER_COUNT: &str =
    "client 1\n1 read b0:id = 0x0000abcd @1.1\nboard b0 places 1 replied 0 timeout 0 lost 0\n";

/// A session that reads a long block, behind its length, and transcripts of it: one with another word at the end, and one
/// with another place.
const BLOCK: &str =
    "166\n[[tables.main]]\nid = \"m\"\nmode = \"block\"\nsize = 24\n[[board]]\nname = \"b0\"\ntable = \"main\"\nranges = [ { base = 0, size = 24 } ]\n[[client]]\nscript = [\"readblock b0:m 24\"]\n";

const BLOCK_WORD: &str =
    "client 1\n1 readblock b0:m = 0x00000000 0x00000000 0x00000000 0x00000000 0x00000000 0x00000000 0x00000000 0x00000000 0x00000000 0x00000000 0x00000000 0x00000000 0x00000000 0x00000000 0x00000000 0x00000000 0x00000000 0x00000000 0x00000000 0x00000000 0x00000000 0x00000000 0x00000000 0x00000001 @1.1\nboard b0 places 1 replied 1 timeout 0 lost 0\n";

const BLOCK_PLACE: &str =
    "client 1\n1 readblock b0:m = 0x00000000 0x00000000 0x00000000 0x00000000 0x00000000 0x00000000 0x00000000 0x00000000 0x00000000 0x00000000 0x00000000 0x00000000 0x00000000 0x00000000 0x00000000 0x00000000 0x00000000 0x00000000 0x00000000 0x00000000 0x00000000 0x00000000 0x00000000 0x00000001 @2.1\nboard b0 places 1 replied 1 timeout 0 lost 0\n";

/// Transcripts of the first document that lack their last line feed, end a line with a space, and show what the operation
/// cannot show.
const NO_FEED: &str =
    "client 1\n1 read b0:id = 0x0000abcd @1.1\nboard b0 places 1 replied 1 timeout 0 lost 0";

const SPACED: &str =
    "client 1 \n1 read b0:id = 0x0000abcd @1.1\nboard b0 places 1 replied 1 timeout 0 lost 0\n";

const DENIED_LINE: &str =
    "client 1\n1 read b0:id denied by rule 1\nboard b0 places 0 replied 0 timeout 0 lost 0\n";

const TWO_PLACES: &str =
    "client 1\n1 read b0:id = 0x0000abcd @1.1,1.2\nboard b0 places 1 replied 1 timeout 0 lost 0\n";

const TWO_WORDS: &str =
    "client 1\n1 read b0:id = 0x0000abcd 0x00000000 @1.1\nboard b0 places 1 replied 1 timeout 0 lost 0\n";

const OTHER_NAME: &str =
    "client 1\n1 read b0:ix = 0x0000abcd @1.1\nboard b0 places 1 replied 1 timeout 0 lost 0\n";

const SILENT: &str = "client 1\n1 read b0:id = 0x0000abcd @1.1\nboard b0 silent\n";

/// A policy whose second rule names no register of the documents.
const MISSPELT: &str =
    "policy = [ { effect = 'allow', access = 'rw', name = '*:**' }, { effect = 'deny', access = 'w', name = 'b0:threshhold' } ]\n";

/// A session of one board over UDP.
const ON_NETWORK: &str =
    "[[tables.main]]\nid = \"a\"\n[[board]]\nname = \"b0\"\ntable = \"main\"\nlink = \"udp\"\naddress = \"127.0.0.1:5000\"\n[[client]]\nscript = [\"write b0:a 1\", \"rmwsum b0:a 1\", \"dispatch\", \"read b0:a\"]\n";

/// Values for a board of which none was read, and the text in front of a document's last line feed.
const UNREAD: &str = "[state.b0]\n\"a\" = 1\n[state.b1]\n\"a\" = 2\n";

/// Two kept registers of one bit.
const OVERLAPPING: &str =
    "[[tables.main]]\nid = \"b\"\n[[tables.main]]\nid = \"a\"\nmask = 1\n[[board]]\nname = \"b0\"\ntable = \"main\"\n[state]\n";

/// A table with a node that breaks a rule, in front of its last lines, and what stands behind it.
const NODE: &str = "[[tables.main]]\nid = \"sys\"\n[[tables.main.nodes]]\nid = \"id\"\n";

const BOARD: &str = "[[board]]\nname = \"b0\"\ntable = \"main\"\n";

const NOTES: &[(End, &str)] = &[
    (
        (USAGE, "serve", ["", "", ""], None),
        "a port from 1 to 65535 is missing\n\
        the session document is read from standard input; \
        try: bin/ipbus run < examples/start/first.toml, or --help\n",
    ),
    (
        (USAGE, "--version", ["", "", ""], None),
        "version 2, for IPbus 2.0 and session documents of formats 1 and 2\n",
    ),
    (
        (REFUSED, "run", ["", "a = ", ""], None),
        "the document is no TOML\n\
        line 1, column 5: invalid value, \
        expected a string, number, boolean, date-time, array or inline table\n",
    ),
    ((REFUSED, "load 1", ["", "a = ", ""], None), ""),
    (
        (REFUSED, "apply", ["", DOCUMENT, NOT_KEPT], None),
        "board b0, register a: the register is not one word that is read and written, \
        or others stand below its name\n\
        it stands in line 32 of the document\n",
    ),
    (
        (REFUSED, "undescribe", ["", "", ""], None),
        "no capture has this description\nline 1: what stands here describes nothing\n",
    ),
    (
        (
            REFUSED,
            "undescribe",
            ["", "first 1\n> raw 200001f2\nproved 0\n", ""],
            None,
        ),
        "no capture has this description\nline 2: what stands here describes nothing\n",
    ),
    (
        (
            REFUSED,
            "undescribe",
            ["", "first 1\n> raw -\nproved 1\n", ""],
            None,
        ),
        "no capture has this description\nline 3: here belongs the last line, proved 0\n",
    ),
    (
        (REFUSED, "undescribe", ["", "first 1\n> raw -\n", ""], None),
        "no capture has this description\nline 3: here belongs the last line, proved 0\n",
    ),
    (
        (NOT_ALL_DONE, "run", [NO_RULES, FIRST, ""], None),
        "no rule of the policy allowed 1 operation\n",
    ),
    (
        (NOT_ALL_DONE, "apply", [POLICY, DOCUMENT, VALUE], None),
        "policy rule 1 denied 1 operation: deny w b0:a.top\n",
    ),
    (
        (
            NOT_ALL_DONE,
            "save",
            [NO_RULES, DOCUMENT, ""],
            Some("[state.b0]\n# \"a.top\" denied by rule 0\n"),
        ),
        "no rule of the policy allowed 1 operation\n\
        registers: 1, boards: 1; not read: 1\n\
        board b0: \"a.top\" denied by rule 0\n",
    ),
    (
        (
            NOT_ALL_DONE,
            "audit",
            [LENGTH, FIRST, FIRST_TRANSCRIPT],
            Some("audit yes\n"),
        ),
        "",
    ),
    (
        (
            NOT_ALL_DONE,
            "audit",
            [LENGTH, FIRST, CUT],
            Some("audit no 3 Form\n"),
        ),
        "line 3: the transcript ends before it\nhere belongs the line of board b0\n",
    ),
    (
        (
            NOT_ALL_DONE,
            "audit",
            [LENGTH, FIRST, ANOTHER_PLACE],
            Some("audit no 2 Place\n"),
        ),
        "line 2: 1 read b0:id = 0x0000abcd @2.1\n\
        each piece shows the place of its body, from 1 to the places of the board's line, and its number there; \
        a body has one place, no two have the same, and those of a client rise\n",
    ),
    (
        (
            NOT_ALL_DONE,
            "audit",
            [LENGTH, FIRST, ANOTHER_WORD],
            Some("audit no 2 Result\n"),
        ),
        "line 2: 1 read b0:id = 0x0000abce @1.1\n\
        the registers of its board give at these places: = 0x0000abcd; a timeout tells 8 rounds, \
        and operations of one packet are answered, timed out or lost together\n",
    ),
    (
        (
            NOT_ALL_DONE,
            "audit",
            [LENGTH, FIRST, ANOTHER_COUNT],
            Some("audit no 3 Count\n"),
        ),
        "line 3: board b0 places 1 replied 0 timeout 0 lost 0\n\
        a board's line counts the places that the lines above show, \
        and these are replied, timeout and lost together\n",
    ),
    // a text that shows another value, and none
    (
        (
            NOT_ALL_DONE,
            "apply",
            ["", GIVEN, ""],
            Some("[state.b0]\n\"a\" = 0x00000007\n# \"b\" unsent\n"),
        ),
        "registers: 2, boards: 1; not read: 1\n\
        board b0: \"b\" unsent\n\
        not as given: 2\n\
        board b0: \"a\" = 0x00000007, given 0x00000009\n\
        board b0: \"b\" not read, given 0x00000001\n",
    ),
    // one that shows what was given, where all was done, and where a write was not
    (
        (
            DONE,
            "apply",
            ["", GIVEN, ""],
            Some("[state.b0]\n\"a\" = 0x00000009\n\"b\" = 0x00000001\n"),
        ),
        "registers: 2, boards: 1\n",
    ),
    (
        (
            NOT_ALL_DONE,
            "apply",
            ["", GIVEN, ""],
            Some("[state.b0]\n\"a\" = 0x00000009\n\"b\" = 0x00000001\n"),
        ),
        "registers: 2, boards: 1\n\
        not done: one write or more, of registers that show the values given all the same\n",
    ),
    // the text of a refusal could not be written, and that of a run
    (
        (WRITE_FAULT, "describe", ["", "first 0\n", ""], None),
        "the output could not be written: the capture was refused, and the line that says so is cut or missing\n\
        line 1: the first line is the word first and an identifier from 1 to 65535\n",
    ),
    (
        (WRITE_FAULT, "run", [NO_RULES, FIRST, ""], None),
        "no rule of the policy allowed 1 operation\n\
        the output could not be written: the scripts were executed, and only the text is cut or missing\n",
    ),
    (
        (READ_FAULT, "run", ["", "", ""], None),
        "the input could not be read; nothing was executed or written\n",
    ),
];

/// What is said beside a line at fault of what it shows.
const LINE_NOTES: &[(End, &str)] = &[
    (
        (
            NOT_ALL_DONE,
            "audit",
            ["", BLOCK, BLOCK_WORD],
            Some("audit no 2 Result\n"),
        ),
        "line 2: 1 readblock b0:m = 0x00000000 0x00000000 0x00000000 0x00000000 0x00000000 0x00000000 0x00000000 0x00000000 0x00000000 0x00000000 0x00000000 0x00000000 0x00000000 0x00000000 0x00000000 0x00000000 0x000..\n\
        the places of this line: 1.1\n\
        the registers of its board give at these places: = 0x00000000 0x00000000 0x00000000 0x00000000 0x00000000 0x00000000 0x00000000 0x00000000 0x00000000 0x00000000 0x00000000 0x00000000 0x00000000 0x00000000 0x00000000 0x00000000 0x00000000 0x00000000 ..; a timeout tells 8 rounds, and operations of one packet are answered, timed out or lost together\n\
        word 24 of the value is 0x00000001, and 0x00000000 is given\n",
    ),
    (
        (
            NOT_ALL_DONE,
            "audit",
            ["", BLOCK, BLOCK_PLACE],
            Some("audit no 2 Place\n"),
        ),
        "line 2: 1 readblock b0:m = 0x00000000 0x00000000 0x00000000 0x00000000 0x00000000 0x00000000 0x00000000 0x00000000 0x00000000 0x00000000 0x00000000 0x00000000 0x00000000 0x00000000 0x00000000 0x00000000 0x000..\n\
        the places of this line: 2.1\n\
        each piece shows the place of its body, from 1 to the places of the board's line, and its number there; a body has one place, no two have the same, and those of a client rise\n",
    ),
    (
        (
            NOT_ALL_DONE,
            "audit",
            [LENGTH, FIRST, NO_FEED],
            Some("audit no 3 Form\n"),
        ),
        "line 3: board b0 places 1 replied 1 timeout 0 lost 0\n\
        here belongs the line of board b0\n\
        this line has no line feed at its end: the text is cut, or its last line feed was lost\n",
    ),
    (
        (
            NOT_ALL_DONE,
            "audit",
            [LENGTH, FIRST, SPACED],
            Some("audit no 1 Form\n"),
        ),
        "line 1: client 1 \nhere belongs: client 1\na space stands at the end of this line\n",
    ),
    (
        (
            NOT_ALL_DONE,
            "audit",
            [LENGTH, FIRST, DENIED_LINE],
            Some("audit no 2 Form\n"),
        ),
        "line 2: 1 read b0:id denied by rule 1\n\
        here belongs operation 1 of client 1, on b0:id, with a result and places that it can have beside the line of its board\n\
        the policy of this session does not deny it\n",
    ),
    (
        (
            NOT_ALL_DONE,
            "audit",
            [LENGTH, FIRST, TWO_PLACES],
            Some("audit no 2 Form\n"),
        ),
        "line 2: 1 read b0:id = 0x0000abcd @1.1,1.2\n\
        here belongs operation 1 of client 1, on b0:id, with a result and places that it can have beside the line of its board\n\
        it shows 2 places, and the operation has 1 piece\n",
    ),
    (
        (
            NOT_ALL_DONE,
            "audit",
            [LENGTH, FIRST, TWO_WORDS],
            Some("audit no 2 Form\n"),
        ),
        "line 2: 1 read b0:id = 0x0000abcd 0x00000000 @1.1\n\
        here belongs operation 1 of client 1, on b0:id, with a result and places that it can have beside the line of its board\n\
        it shows 2 words, and the operation reads 1\n",
    ),
    (
        (
            NOT_ALL_DONE,
            "audit",
            [LENGTH, FIRST, OTHER_NAME],
            Some("audit no 2 Form\n"),
        ),
        "line 2: 1 read b0:ix = 0x0000abcd @1.1\n\
        here belongs operation 1 of client 1, on b0:id, with a result and places that it can have beside the line of its board\n\
        its line begins with: 1 read b0:id\n",
    ),
    (
        (
            NOT_ALL_DONE,
            "audit",
            [LENGTH, FIRST, SILENT],
            Some("audit no 2 Form\n"),
        ),
        "line 2: 1 read b0:id = 0x0000abcd @1.1\n\
        here belongs operation 1 of client 1, on b0:id, with a result and places that it can have beside the line of its board\n\
        its board is silent: its line shows unsent, and no place\n",
    ),
];

/// Of a recording what was denied, rules that match no register, and what became of values.
const RULE_NOTES: &[(End, &str)] = &[
    (
        (NOT_ALL_DONE, "record", [NO_RULES, FIRST, ""], None),
        "no rule of the policy allowed 1 operation\n",
    ),
    (
        (DONE, "run", [MISSPELT, FIRST, ""], None),
        "policy rule 2 matches no register: deny w b0:threshhold\n",
    ),
    (
        (DONE, "check main", [MISSPELT, FIRST, ""], None),
        "policy rule 2 matches no register: deny w b0:threshhold\n\
        client 1, board b0: packets 1, words read 1, words written 0\n",
    ),
    (
        (DONE, "check main", ["", ON_NETWORK, ""], None),
        "client 1, board b0: packets 2, words read 2, words written 2\n\
        packets to boards over UDP are counted for an MTU of 1500; each board tells its own when a run starts\n",
    ),
    // boards some of whose registers were given no value, and a board of which none was read
    (
        (
            DONE,
            "apply",
            ["", GIVEN, ""],
            Some(
                "[state.b0]\n\
                \"a\" = 0x00000009\n\
                \"b\" = 0x00000001\n\
                \"c\" = 0x00000000\n\
                [state.b1]\n\
                \"a\" = 0x00000000\n",
            ),
        ),
        "registers: 4, boards: 2\nboard b0: 2 of 3 given\nboard b1: 0 of 1 given\n",
    ),
    (
        (
            NOT_ALL_DONE,
            "apply",
            ["", UNREAD, ""],
            Some("[state.b0]\n\"a\" = 0x00000000\n[state.b1]\n# \"a\" unsent\n# \"b\" unsent\n"),
        ),
        "registers: 3, boards: 2; not read: 2\n\
        board b1: none of 2 registers was read, the first: \"a\" unsent\n\
        board b1: 1 of 2 given\n\
        not as given: 2\n\
        board b0: \"a\" = 0x00000000, given 0x00000001\n",
    ),
    // values behind a document without a last line feed, and registers that overlap
    (
        (REFUSED, "apply", [DOCUMENT, "board = []", VALUE], None),
        "the document is no TOML\n\
        line 31, column 11: unexpected key or value, expected newline, `#`\n\
        line 31: the values of a board begin behind something else: the text in front of them has no line feed at its end; { cat DOCUMENT; echo; cat VALUES; } puts one there\n",
    ),
    (
        (REFUSED, "apply", ["", OVERLAPPING, ""], None),
        "board b0, register b: an earlier register that is kept shares a bit with this one\n\
        a and b share a bit of the word at 0x00000000\n",
    ),
    (
        (
            REFUSED,
            "apply",
            [FIRST, "[state.b0]\nid = true\n", ""],
            None,
        ),
        "board b0, register id: under state each board has a table, and in it each register a number, by its name in quotes\n\
        it is true, and here belongs a number of 32 bits\n\
        it stands in line 15 of the document\n",
    ),
    (
        (REFUSED, "apply", [FIRST, "", ""], None),
        "under state each board has a table, and in it each register a number, by its name in quotes\n\
        the document has no state\n",
    ),
];

/// The key of a node or of a document that breaks a rule, and where it stands.
const KEY_NOTES: &[(End, &str)] = &[
    (
        (REFUSED, "run", [NODE, "maks = 1\n", BOARD], None),
        "table main, node 0.0: no node of this format has this key; count and stride want format = 2\n\
        the node \"id\" has maks = 1\n\
        it stands in line 5 of the document\n",
    ),
    (
        (REFUSED, "run", [NODE, "mode = \"blok\"\n", BOARD], None),
        "table main, node 0.0: a mode is single, block, port or hierarchical, and block and port have the full mask\n\
        the node \"id\" has mode = \"blok\"\n\
        it stands in line 5 of the document\n",
    ),
    (
        (REFUSED, "run", [NODE, "permission = \"x\"\n", BOARD], None),
        "table main, node 0.0: a permission is r, w or rw\n\
        the node \"id\" has permission = \"x\"\n\
        it stands in line 5 of the document\n",
    ),
    (
        (REFUSED, "run", [NODE, "size = 4294967296\n", BOARD], None),
        "table main, node 0.0: address, mask, size, count and stride are numbers of 32 bits\n\
        the node \"id\" has size = 4294967296\n\
        it stands in line 5 of the document\n",
    ),
    (
        (REFUSED, "run", [NODE, "mask = 0\n", BOARD], None),
        "table main, node 0.0: a mask has at least one bit\n\
        the node \"id\" has mask = 0\n\
        it stands in line 5 of the document\n",
    ),
    (
        (REFUSED, "run", [NODE, "tags = [\n1,\n]\n", BOARD], None),
        "table main, node 0.0: a table lists nodes in an array, each with values of the right kinds, and with module or nodes, not both\n\
        here belongs a text\n\
        the node \"id\" has tags = an array\n\
        it stands in lines 5 to 7 of the document\n",
    ),
    (
        (REFUSED, "run", ["", FIRST, "window = 17\n"], None),
        "at client.0.window: a value of another kind or range, a key that does not belong there, or a key that is missing\n\
        no key of this name belongs there\n\
        it stands in line 14 of the document\n",
    ),
    (
        (REFUSED, "run", ["window = 17\n", FIRST, ""], None),
        "at window: a value of another kind or range, a key that does not belong there, or a key that is missing\n\
        it is 17, and here belongs a number from 1 to 16\n\
        it stands in line 1 of the document\n",
    ),
    (
        (
            REFUSED,
            "run",
            [FIRST, "[[board]]\nname = \"b1\"\n", ""],
            None,
        ),
        "at board.1.table: a value of another kind or range, a key that does not belong there, or a key that is missing\n\
        this key is missing\n\
        it stands in line 14 of the document\n",
    ),
    // no board is asked by some commands
    (
        (NO_MEMORY, "describe", ["", "", ""], None),
        "memory ran out; nothing was written\n",
    ),
];

#[test]
fn notes_are_said(rt: HostRuntime) {
    for (end, wanted) in NOTES {
        assert!(rt; is_said(rt.alloc(), *end, wanted) == Ok(true), "{wanted}");
    }
}

#[test]
fn notes_of_lines_are_said(rt: HostRuntime) {
    for (end, wanted) in LINE_NOTES {
        assert!(rt; is_said(rt.alloc(), *end, wanted) == Ok(true), "{wanted}");
    }
}

#[test]
fn notes_of_rules_and_values_are_said(rt: HostRuntime) {
    for (end, wanted) in RULE_NOTES {
        assert!(rt; is_said(rt.alloc(), *end, wanted) == Ok(true), "{wanted}");
    }
}

#[test]
fn notes_of_keys_are_said(rt: HostRuntime) {
    for (end, wanted) in KEY_NOTES {
        assert!(rt; is_said(rt.alloc(), *end, wanted) == Ok(true), "{wanted}");
    }
}
