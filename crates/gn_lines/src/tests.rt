use super::*;

/// The words of a text, each with the number of its line.
static WORDS: [(u64, &str); 13] = [
    (2, "mtllib"),
    (2, "a#b"),
    (3, "v"),
    (3, "1"),
    (3, "2"),
    (5, "f"),
    (5, "1/2/3"),
    (5, "4"),
    (5, "5"),
    (9, "l\\"),
    (9, "1"),
    (11, "p"),
    (11, "7"),
];

#[test]
fn gives_the_words_of_lines_as_tools_write_them(rt: HostRuntime) {
    let text =
        "\u{FEFF}# a comment \\\nmtllib a#b # more\r\n\tv  1 2\n\nf 1/2/3\\\n 4\\ # on\r\n\\\n5\nl\\ 1\\\n\np 7\\";
    let mut lines = Lines::new(text.as_bytes());
    let mut next = WORDS.iter();
    for _ in 0..text.len() {
        let number = lines.number();
        for _ in 0..text.len() {
            let Some(word) = lines.next_word() else {
                break;
            };
            let wanted = next.next();
            assert_eq!(rt; wanted.map(|w| w.0), Some(number));
            assert_eq!(rt; wanted.map(|w| w.1.as_bytes()), Some(word));
        }
        if !lines.next_line() {
            break;
        }
    }
    assert!(rt; next.next().is_none());
}
