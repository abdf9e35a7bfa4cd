use gn_app::{Status, refuse_stray, run, run_alone};
use gn_io::{MemShelf, MemSink, OpenGate};
use gn_shared::Meter;
use std::alloc::Global;
use std::collections::BTreeMap;
use std::process::Abort;
use std::sync::Wait;
use std::test::Fail;
use std::thread::Threads;

/// A tree of one node that moves every vertex up by one.
const LIFT: &str =
    "{\"format\":1,\"nodes\":[{\"id\":\"up\",\"kind\":\"set_position\",\"in\":{\"geometry\":{\"from\":\"input\",\"socket\":\"geometry\"},\"offset\":[\"0\",\"0\",\"1\"]}}],\"output\":{\"from\":\"up\",\"socket\":\"geometry\"}}";

const TRIANGLE: &str = "v 0 0 0\nv 1 0 0\nv 0 1 0\nf 1 2 3\n";

const LIFTED: &str = "v 0 0 1\nv 1 0 1\nv 0 1 1\nf 1 2 3\n";

/// What is written where the output takes all but the last byte.
const ALL_BUT_ONE: &str = "v 0 0 1\nv 1 0 1\nv 0 1 1\nf 1 2 3";

/// There is no file of that name.
const ABSENT: &str = "absent";

const EVAL: [&str; 3] = ["eval", "t.json", "in.obj"];

const CHECK: [&str; 2] = ["check", "t.json"];

const NAMES: [&str; 2] = ["t.json", "in.obj"];

/// The calls that run words.
#[derive(Clone, Copy)]
enum Call {
    Run,
    RunAlone,
}

/// What came of a run.
#[derive(Drop)]
struct Outcome {
    status: Status,
    text: Vec<u8>,
    said: Vec<u8>,
    asked: Vec<String>,
    runs: u64,
}

/// A file of that name, unless it is absent.
fn add_file(
    alloc: Global,
    files: &mut BTreeMap<String, Vec<u8>>,
    name: &str,
    text: &str,
) -> Result<(), Fail> {
    if text != ABSENT {
        files.insert(
            String::from_str(alloc, name)?,
            text.as_bytes().to_vec(alloc)?,
        )?;
    }
    Ok(())
}

fn words_of(alloc: Global, words: &[&str]) -> Result<Vec<String>, Fail> {
    let mut all = Vec::new(alloc);
    for word in words {
        all.push(String::from_str(alloc, word)?)?;
    }
    Ok(all)
}

fn names_asked(alloc: Global, shelf: &MemShelf) -> Result<Vec<String>, Fail> {
    let mut names = Vec::new(alloc);
    for call in shelf.calls() {
        names.push(call.name.clone()?)?;
    }
    Ok(names)
}

/// Runs words over files in memory by one of the calls. The fetch with that number fails, and so do the put to the
/// output and the put to the sink of messages with those numbers, which take that many bytes.
fn run_by<R: Abort + Threads + Wait + Sync>(
    rt: &R,
    alloc: Global,
    call: Call,
    words: &[String],
    tree: &str,
    input: &str,
    fail: u64,
    stop: (u64, u64),
    mute: (u64, u64),
) -> Result<Outcome, Fail> {
    let mut files = BTreeMap::new(alloc);
    add_file(alloc, &mut files, "t.json", tree)?;
    add_file(alloc, &mut files, "in.obj", input)?;
    let fail = [fail].to_vec(alloc)?;
    let stop = [stop].to_vec(alloc)?;
    let mute = [mute].to_vec(alloc)?;
    let mut shelf = MemShelf::new(alloc, files, fail, Vec::new(alloc));
    let mut out = MemSink::new(alloc, stop, 4096)?;
    let mut err = MemSink::new(alloc, mute, 4096)?;
    let mut meter = Meter::new(());
    let (shelf_lent, out_lent, err_lent) = (&mut shelf, &mut out, &mut err);
    let status = match call {
        Call::Run => run(
            rt, alloc, words, shelf_lent, out_lent, err_lent, &OpenGate, &mut meter,
        ),
        Call::RunAlone => run_alone(rt, alloc, words, shelf_lent, out_lent, err_lent, &mut meter),
    };
    let (runs, copies) = meter.spend(());
    assert_eq!(rt; copies, 0);
    Ok(Outcome {
        status,
        text: out.held().to_vec(alloc)?,
        said: err.held().to_vec(alloc)?,
        asked: names_asked(alloc, &shelf)?,
        runs,
    })
}

/// Runs words as `run_by` does by both calls.
fn run_over<R: Abort + Threads + Wait + Sync>(
    rt: &R,
    alloc: Global,
    words: &[&str],
    tree: &str,
    input: &str,
    fail: u64,
    stop: (u64, u64),
    mute: (u64, u64),
) -> Result<[Outcome; 2], Fail> {
    let words = words_of(alloc, words)?;
    let words = words.as_slice();
    let waiting = run_by(rt, alloc, Call::Run, words, tree, input, fail, stop, mute)?;
    let alone = run_by(
        rt,
        alloc,
        Call::RunAlone,
        words,
        tree,
        input,
        fail,
        stop,
        mute,
    )?;
    Ok([waiting, alone])
}

/// Compares what came of both runs, each of which asked for the first `asked` of the two files.
fn compare(
    rt: &impl Abort,
    outcomes: &[Outcome; 2],
    status: Status,
    text: &str,
    said: &str,
    asked: usize,
    runs: u64,
) {
    for seen in outcomes.iter() {
        assert_eq!(rt; seen.status, status);
        assert_eq!(rt; seen.text.as_slice(), text.as_bytes());
        assert_eq!(rt; seen.said.as_slice(), said.as_bytes());
        assert_eq!(rt; seen.runs, runs);
        assert_eq!(rt; seen.asked.len(), asked);
        for (name, wanted) in seen.asked.iter().zip(NAMES) {
            assert_eq!(rt; name.as_str(), wanted);
        }
    }
}

const NONE: (u64, u64) = (0, 0);

#[test]
fn a_triangle_is_lifted_unless_a_file_is_refused(rt: HostRuntime) -> Result<(), Fail> {
    let cases = [
        (LIFT, TRIANGLE, 0u64, Status::Done, LIFTED, "", 2usize),
        (
            ABSENT,
            TRIANGLE,
            0,
            Status::Absent,
            "",
            "geonodes: absent: t.json\n",
            1,
        ),
        (
            LIFT,
            ABSENT,
            0,
            Status::Absent,
            "",
            "geonodes: absent: in.obj\n",
            2,
        ),
        (
            LIFT,
            TRIANGLE,
            1,
            Status::ReadFault,
            "",
            "geonodes: read fault: t.json\n",
            1,
        ),
        (
            LIFT,
            TRIANGLE,
            2,
            Status::ReadFault,
            "",
            "geonodes: read fault: in.obj\n",
            2,
        ),
    ];
    for (tree, input, fail, status, text, said, asked) in cases.iter() {
        let seen = run_over(&rt, rt.alloc(), &EVAL, tree, input, *fail, NONE, NONE)?;
        let runs = u64::from(*status == Status::Done);
        compare(&rt, &seen, *status, text, said, *asked, runs);
    }
    Ok(())
}

#[test]
fn a_fault_of_writing_tells_how_many_bytes_went_in(rt: HostRuntime) -> Result<(), Fail> {
    let cases = [
        (0u64, "", "geonodes: write fault after 0 bytes\n"),
        (3, "v 0", "geonodes: write fault after 3 bytes\n"),
        (31, ALL_BUT_ONE, "geonodes: write fault after 31 bytes\n"),
    ];
    for (taken, text, said) in cases.iter() {
        let stop = (1, *taken);
        let seen = run_over(&rt, rt.alloc(), &EVAL, LIFT, TRIANGLE, 0, stop, NONE)?;
        compare(&rt, &seen, Status::WriteFault, text, said, 2, 1);
    }
    Ok(())
}

#[test]
fn words_that_are_no_command_touch_nothing_and_are_reported(rt: HostRuntime) -> Result<(), Fail> {
    let cases: [(&[&str], &str); 9] = [
        (&[], "geonodes: usage: more words expected\n"),
        (&["eval"], "geonodes: usage: more words expected\n"),
        (
            &["eval", "t.json"],
            "geonodes: usage: more words expected\n",
        ),
        (&[""], "geonodes: usage: unexpected \n"),
        (&["check"], "geonodes: usage: more words expected\n"),
        (
            &["check", "t.json", "in.obj"],
            "geonodes: usage: unexpected in.obj\n",
        ),
        (
            &["eval", "t", "i", "--workers", "65"],
            "geonodes: usage: unexpected --workers\n",
        ),
        (
            &["eval", "t.json", "in.obj", "--report", "x"],
            "geonodes: usage: unexpected --report\n",
        ),
        (&["--help", "eval"], "geonodes: usage: unexpected eval\n"),
    ];
    for (words, said) in cases.iter() {
        let seen = run_over(&rt, rt.alloc(), words, LIFT, TRIANGLE, 0, NONE, NONE)?;
        compare(&rt, &seen, Status::Usage, "", said, 0, 0);
    }
    Ok(())
}

#[test]
fn help_and_version_need_no_file(rt: HostRuntime) -> Result<(), Fail> {
    let cases = [
        (
            "--help",
            "usage: geonodes eval TREE OBJ\n       geonodes check TREE\n       geonodes --help\n       geonodes --version\n",
        ),
        ("--version", "geonodes 0.1.0\n"),
    ];
    for (word, text) in cases.iter() {
        let seen = run_over(&rt, rt.alloc(), &[*word], ABSENT, ABSENT, 1, NONE, NONE)?;
        compare(&rt, &seen, Status::Done, text, "", 0, 0);
        let seen = run_over(&rt, rt.alloc(), &[*word], ABSENT, ABSENT, 1, (1, 4), NONE)?;
        let said = "geonodes: write fault after 4 bytes\n";
        compare(&rt, &seen, Status::WriteFault, &text[..4], said, 0, 0);
    }
    Ok(())
}

#[test]
fn a_message_that_can_not_be_written_changes_no_status(rt: HostRuntime) -> Result<(), Fail> {
    let cases = [
        ((1u64, 5u64), "geono"),
        ((2, 3), "geonodes: absent: t.j"),
        ((3, 0), "geonodes: absent: t.json"),
    ];
    for (mute, said) in cases.iter() {
        let seen = run_over(&rt, rt.alloc(), &EVAL, ABSENT, TRIANGLE, 0, NONE, *mute)?;
        compare(&rt, &seen, Status::Absent, "", said, 1, 0);
    }
    Ok(())
}

#[test]
fn a_tree_that_is_the_input_too_is_asked_for_once(rt: HostRuntime) -> Result<(), Fail> {
    // the text of a tree is one line with a word that no OBJ text has, which is skipped
    let words = ["eval", "t.json", "t.json"];
    let seen = run_over(&rt, rt.alloc(), &words, LIFT, TRIANGLE, 0, NONE, NONE)?;
    compare(&rt, &seen, Status::Done, "", "", 1, 1);
    Ok(())
}

/// A cube as a modelling program writes it.
const CUBE: &str =
    "# a sample cube\n# two comment lines\nmtllib cube.mtl\no Cube\nv 1.000000 1.000000 -1.000000\nv 1.000000 -1.000000 -1.000000\nv 1.000000 1.000000 1.000000\nv 1.000000 -1.000000 1.000000\nv -1.000000 1.000000 -1.000000\nv -1.000000 -1.000000 -1.000000\nv -1.000000 1.000000 1.000000\nv -1.000000 -1.000000 1.000000\nvn -0.0000 1.0000 -0.0000\nvt 0.625000 0.500000\ns 0\nusemtl Material\nf 1/1/1 5/1/1 7/1/1 3/1/1\nf 4/1/1 3/1/1 7/1/1 8/1/1\nf 8/1/1 7/1/1 5/1/1 6/1/1\nf 6/1/1 2/1/1 4/1/1 8/1/1\nf 2/1/1 1/1/1 3/1/1 4/1/1\nf 6/1/1 5/1/1 1/1/1 2/1/1\n";

/// The same cube, moved up by one.
const LIFTED_CUBE: &str =
    "v 1 1 0\nv 1 -1 0\nv 1 1 2\nv 1 -1 2\nv -1 1 0\nv -1 -1 0\nv -1 1 2\nv -1 -1 2\nf 1 5 7 3\nf 4 3 7 8\nf 8 7 5 6\nf 6 2 4 8\nf 2 1 3 4\nf 6 5 1 2\n";

#[test]
fn inputs_are_obj_texts(rt: HostRuntime) -> Result<(), Fail> {
    let cases = [
        ("v -5 0 999999999\n", "v -5 0 1000000000\n"),
        ("v 1e0 +0.5 .25 9 # more\r\nvn 0 0 1", "v 1 0.5 1.25\n"),
        ("v 0 0 0\nv 1 0 0\nv 0 1 0\nf -3/1 -2/2 \\\n-1/3\n", LIFTED),
        (
            "v 0 0 0\nv 1 0 0\nv 0 1 0\nl 2 1\nf 1 1 2\n",
            "v 0 0 1\nv 1 0 1\nv 0 1 1\nl 1 2\n",
        ),
        ("# nothing\n\n", ""),
        (CUBE, LIFTED_CUBE),
        (
            "v 1e-05 -0.1 2.5000000001 1\n",
            "v 0.0000100001 -0.1000000001 3.5\n",
        ),
    ];
    for (input, text) in cases.iter() {
        let seen = run_over(&rt, rt.alloc(), &EVAL, LIFT, input, 0, NONE, NONE)?;
        compare(&rt, &seen, Status::Done, text, "", 2, 1);
    }
    Ok(())
}

#[test]
fn the_first_bad_line_of_an_input_is_reported(rt: HostRuntime) -> Result<(), Fail> {
    let cases = [
        (
            "v 0 0 0\nv 1 0 0\nv 0 1 0\nf 1 2 0\n",
            "geonodes: obj text: line 4: O3\n",
        ),
        (
            "v 0 0 0\nv 1 0 0\nv 0 1 0\nf 1 2 4\n",
            "geonodes: obj text: line 4: O4\n",
        ),
        (
            "v 0 0 0\nv 1 0 0\nv 0 1 0\nf 1 2\n",
            "geonodes: obj text: line 4: O2\n",
        ),
        ("v 0 0\nf 1 2\n", "geonodes: obj text: line 1: O1\n"),
    ];
    for (input, said) in cases.iter() {
        let seen = run_over(&rt, rt.alloc(), &EVAL, LIFT, input, 0, NONE, NONE)?;
        compare(&rt, &seen, Status::ObjText, "", said, 2, 0);
    }
    Ok(())
}

#[test]
fn a_sum_past_the_range_stops_at_its_end(rt: HostRuntime) -> Result<(), Fail> {
    let tree =
        "{\"format\":1,\"nodes\":[{\"id\":\"up\",\"kind\":\"set_position\",\"in\":{\"geometry\":{\"from\":\"input\",\"socket\":\"geometry\"},\"offset\":[\"1\",\"0\",\"0\"]}}],\"output\":{\"from\":\"up\",\"socket\":\"geometry\"}}";
    let text = "v 2147483647.9999999998 0 0\n";
    let seen = run_over(&rt, rt.alloc(), &EVAL, tree, text, 0, NONE, NONE)?;
    compare(&rt, &seen, Status::Done, text, "", 2, 1);
    Ok(())
}

const EMPTY_TREE: &str = r#"{"format":1,"nodes":[]}"#;

const INPUT_TREE: &str = r#"{"format":1,"nodes":[],"output":{"from":"input","socket":"geometry"}}"#;

/// Points go to (1, 2, 3) and then by (0, 0, 1).
const PLACING_TREE: &str =
    r#"{"format":1,"nodes":[{"id":"m","kind":"set_position","in":{"geometry":{"from":"input","socket":"geometry"},"position":["1","2","3"],"offset":["0","0","1"]}}],"output":{"from":"m","socket":"geometry"}}"#;

/// No point is selected.
const RESTING_TREE: &str =
    r#"{"format":1,"nodes":[{"id":"m","kind":"set_position","in":{"geometry":{"from":"input","socket":"geometry"},"selection":false,"offset":["0","0","1"]}}],"output":{"from":"m","socket":"geometry"}}"#;

/// A group in a group: -1.5 becomes the integer -1 on the way in, and then a vector.
const GROUPED_TREE: &str =
    r#"{"format":1,"groups":[{"name":"inner","inputs":[{"name":"g","kind":"geometry"},{"name":"by","kind":"int"}],"outputs":[{"name":"g","kind":"geometry"}],"nodes":[{"id":"m","kind":"set_position","in":{"geometry":{"from":"input","socket":"g"},"offset":{"from":"input","socket":"by"}}}],"output":{"g":{"from":"m","socket":"geometry"}}},{"name":"outer","inputs":[{"name":"by","kind":"fixed"},{"name":"g","kind":"geometry"}],"outputs":[{"name":"g","kind":"geometry"}],"nodes":[{"id":"n","kind":"group","set":{"group":"inner"},"in":{"by":{"from":"input","socket":"by"},"g":{"from":"input","socket":"g"}}}],"output":{"g":{"from":"n","socket":"g"}}}],"nodes":[{"id":"up","kind":"group","set":{"group":"outer"},"in":{"by":"-1.5","g":{"from":"input","socket":"geometry"}}}],"output":{"from":"up","socket":"g"}}"#;

#[test]
fn trees_give_out_what_they_mean(rt: HostRuntime) -> Result<(), Fail> {
    let cases = [
        (EMPTY_TREE, "", "", 0u64),
        (EMPTY_TREE, TRIANGLE, "", 0),
        (INPUT_TREE, TRIANGLE, TRIANGLE, 0),
        (
            INPUT_TREE,
            "v 1e-05 -0.1 2.5000000001 1\n",
            "v 0.0000100001 -0.1000000001 2.5\n",
            0,
        ),
        (
            PLACING_TREE,
            TRIANGLE,
            "v 1 2 4\nv 1 2 4\nv 1 2 4\nf 1 2 3\n",
            1,
        ),
        (RESTING_TREE, TRIANGLE, TRIANGLE, 1),
        (
            GROUPED_TREE,
            TRIANGLE,
            "v -1 -1 -1\nv 0 -1 -1\nv -1 0 -1\nf 1 2 3\n",
            1,
        ),
    ];
    for (tree, input, text, runs) in cases.iter() {
        let seen = run_over(&rt, rt.alloc(), &EVAL, tree, input, 0, NONE, NONE)?;
        compare(&rt, &seen, Status::Done, text, "", 2, *runs);
    }
    Ok(())
}

const IMPORT_TREE: &str =
    r#"{"format":1,"nodes":[{"id":"i","kind":"import_obj","set":{"file":"a.obj"}}],"output":{"from":"i","socket":"geometry"}}"#;

const SWITCH_TREE: &str =
    r#"{"format":1,"nodes":[{"id":"s","kind":"switch","set":{"type":"geometry"},"in":{"switch":true,"true":{"from":"input","socket":"geometry"}}}],"output":{"from":"s","socket":"output"}}"#;

#[test]
fn well_formed_trees_are_checked_alone(rt: HostRuntime) -> Result<(), Fail> {
    let trees = [
        EMPTY_TREE,
        INPUT_TREE,
        LIFT,
        GROUPED_TREE,
        IMPORT_TREE,
        SWITCH_TREE,
    ];
    for tree in trees.iter() {
        let seen = run_over(&rt, rt.alloc(), &CHECK, tree, ABSENT, 0, NONE, NONE)?;
        compare(&rt, &seen, Status::Done, "ok\n", "", 1, 0);
    }
    let seen = run_over(&rt, rt.alloc(), &CHECK, LIFT, ABSENT, 0, (1, 2), NONE)?;
    let said = "geonodes: write fault after 2 bytes\n";
    compare(&rt, &seen, Status::WriteFault, "ok", said, 1, 0);
    for tree in [IMPORT_TREE, SWITCH_TREE].iter() {
        let seen = run_over(&rt, rt.alloc(), &EVAL, tree, ABSENT, 2, NONE, NONE)?;
        compare(
            &rt,
            &seen,
            Status::NotBuilt,
            "",
            "geonodes: not built\n",
            1,
            0,
        );
    }
    Ok(())
}

/// Each of two nodes leads to the other.
const CIRCLE: &str =
    r#"{"format":1,"nodes":[{"id":"a","kind":"set_position","in":{"geometry":{"from":"b","socket":"geometry"}}},{"id":"b","kind":"set_position","in":{"geometry":{"from":"a","socket":"geometry"}}}],"output":{"from":"b","socket":"geometry"}}"#;

const FLOAT_FROM_NUMBER: &str =
    r#"{"format":1,"nodes":[{"id":"a","kind":"float","set":{"value":0.5}}]}"#;

/// As many opening brackets and as many closing ones.
fn brackets(alloc: Global, count: usize) -> Result<String, Fail> {
    let mut text = "[".repeat(alloc, count)?;
    text.push_str("]".repeat(alloc, count)?.as_str())?;
    Ok(text)
}

#[test]
fn trees_that_are_not_well_formed_are_reported(rt: HostRuntime) -> Result<(), Fail> {
    let deep = brackets(rt.alloc(), 128)?;
    let text = "geonodes: tree text\n";
    let cases = [
        (deep.as_str(), Status::TreeText, text),
        ("{", Status::TreeText, text),
        ("[]", Status::TreeForm, "geonodes: tree form: F1 at /\n"),
        (
            FLOAT_FROM_NUMBER,
            Status::TreeForm,
            "geonodes: tree form: F1 at /nodes/0/set/value\n",
        ),
        (
            CIRCLE,
            Status::TreeForm,
            "geonodes: tree form: F5 at /nodes/0\n",
        ),
    ];
    for (tree, status, said) in cases.iter() {
        // a second fetch would fail, and there is none
        let seen = run_over(&rt, rt.alloc(), &EVAL, tree, TRIANGLE, 2, NONE, NONE)?;
        compare(&rt, &seen, *status, "", said, 1, 0);
        let seen = run_over(&rt, rt.alloc(), &CHECK, tree, ABSENT, 0, NONE, NONE)?;
        compare(&rt, &seen, *status, "", said, 1, 0);
    }
    Ok(())
}

/// The lifting tree with spaces behind it, up to a length.
fn padded(alloc: Global, length: usize) -> Result<String, Fail> {
    let mut text = String::from_str(alloc, LIFT)?;
    let spaces = " ".repeat(alloc, length.saturating_sub(LIFT.len()))?;
    text.push_str(spaces.as_str())?;
    Ok(text)
}

#[test]
fn a_tree_has_at_most_four_mebibytes(rt: HostRuntime) -> Result<(), Fail> {
    let whole = padded(rt.alloc(), 4_194_304)?;
    let seen = run_over(
        &rt,
        rt.alloc(),
        &EVAL,
        whole.as_str(),
        TRIANGLE,
        0,
        NONE,
        NONE,
    )?;
    compare(&rt, &seen, Status::Done, LIFTED, "", 2, 1);
    let long = padded(rt.alloc(), 4_194_305)?;
    let seen = run_over(
        &rt,
        rt.alloc(),
        &EVAL,
        long.as_str(),
        TRIANGLE,
        0,
        NONE,
        NONE,
    )?;
    let said = "geonodes: too long: t.json: 4194305\n";
    compare(&rt, &seen, Status::TooLong, "", said, 1, 0);
    Ok(())
}

#[test]
fn an_input_has_at_most_128_mebibytes(rt: HostRuntime) -> Result<(), Fail> {
    let long = padded(rt.alloc(), 134_217_729)?;
    let seen = run_over(&rt, rt.alloc(), &EVAL, LIFT, long.as_str(), 0, NONE, NONE)?;
    let said = "geonodes: too long: in.obj: 134217729\n";
    compare(&rt, &seen, Status::TooLong, "", said, 2, 0);
    Ok(())
}

/// That many vertices, and a last line.
fn many_vertices(alloc: Global, count: usize, last: &str) -> Result<String, Fail> {
    let mut text = "v 0 0 0\n".repeat(alloc, count)?;
    text.push_str(last)?;
    Ok(text)
}

#[test]
fn a_mesh_has_at_most_8388608_vertices(rt: HostRuntime) -> Result<(), Fail> {
    let input = many_vertices(rt.alloc(), 8_388_608, "v 0 0 0\n")?;
    let seen = run_over(&rt, rt.alloc(), &EVAL, LIFT, input.as_str(), 0, NONE, NONE)?;
    let said = "geonodes: obj text: line 8388609: O5\n";
    compare(&rt, &seen, Status::ObjText, "", said, 2, 0);
    Ok(())
}

#[test]
fn a_mesh_may_have_8388608_vertices(rt: HostRuntime) -> Result<(), Fail> {
    let input = many_vertices(rt.alloc(), 8_388_608, "f 1 2\n")?;
    let seen = run_over(&rt, rt.alloc(), &EVAL, LIFT, input.as_str(), 0, NONE, NONE)?;
    let said = "geonodes: obj text: line 8388609: O2\n";
    compare(&rt, &seen, Status::ObjText, "", said, 2, 0);
    Ok(())
}

#[test]
fn a_word_that_is_no_text_is_named_unless_one_before_it_fits_nothing(
    rt: HostRuntime,
) -> Result<(), Fail> {
    let cases: [(&[&str], &[u8]); 4] = [
        (&[], b"geonodes: usage: unexpected \xFF\n"),
        (&["eval", "t.json"], b"geonodes: usage: unexpected \xFF\n"),
        (&["--help"], b"geonodes: usage: unexpected \xFF\n"),
        (&["--help", "me"], b"geonodes: usage: unexpected me\n"),
    ];
    for (words, said) in cases.iter() {
        let words = words_of(rt.alloc(), words)?;
        let mut err = MemSink::new(rt.alloc(), Vec::new(rt.alloc()), 4096)?;
        assert_eq!(rt; refuse_stray(&words, b"\xFF", &mut err), Status::Usage);
        assert_eq!(rt; err.held(), *said);
    }
    Ok(())
}
