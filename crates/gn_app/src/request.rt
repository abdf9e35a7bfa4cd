ghost use Rattle.std.specs.Prelude.{◌≡◌, Result, Ok, Err, map, string_bytes, option_map};
ghost use Rattle.gn_app.specs.Command.{Spells, SpellsNone, Misfits};
ghost use Rattle.gn_app.specs.Seen.{command_of};
ghost use Rattle.gn_app.specs.Steps.{Reads, ReadsOperands, ReadsOperand, ReadsAlone};

/// What the words of the command line ask for.
#[derive(Clone, Copy)]
pub(crate) enum Request<'a> {
    Eval { tree: &'a str, input: &'a str },
    Check { tree: &'a str },
    Help,
    Version,
}

/// The operands of `eval`, or the word behind them, or none where there are too few.
fn eval_with(operands: &[String]) -> Result<Request<'_>, Option<&str>>
    ensures { ReadsOperands (map string_bytes operands.now) result }
{
    let Some((tree, rest)) = operands.split_first() else {
        return Err(None);
    };
    let Some((input, rest)) = rest.split_first() else {
        return Err(None);
    };
    match rest.split_first() {
        Some((word, _)) => Err(Some(word.as_str())),
        None => Ok(Request::Eval {
            tree: tree.as_str(),
            input: input.as_str(),
        }),
    }
}

/// The operand of `check`; else the first word too many, or `None` if a word is missing.
fn check_with(operands: &[String]) -> Result<Request<'_>, Option<&str>>
    ensures { ReadsOperand (map string_bytes operands.now) result }
{
    let Some((tree, rest)) = operands.split_first() else {
        return Err(None);
    };
    match rest.split_first() {
        Some((word, _)) => Err(Some(word.as_str())),
        None => Ok(Request::Check {
            tree: tree.as_str(),
        }),
    }
}

/// A request of one word, or the word behind it.
fn alone<'a>(request: Request<'a>, rest: &'a [String]) -> Result<Request<'a>, Option<&'a str>>
    ensures { ReadsAlone request.entry (map string_bytes rest.now) result }
{
    match rest.split_first() {
        Some((word, _)) => Err(Some(word.as_str())),
        None => Ok(request),
    }
}

/// The command that the words spell, or the first word that fits no command, or none where more
/// words are expected.
pub(crate) fn read_request(words: &[String]) -> Result<Request<'_>, Option<&str>>
    ensures { Reads (map string_bytes words.now) result }
{
    let Some((keyword, rest)) = words.split_first() else {
        return Err(None);
    };
    if keyword.as_str() == "eval" {
        return eval_with(rest);
    }
    if keyword.as_str() == "check" {
        return check_with(rest);
    }
    if keyword.as_str() == "--help" {
        return alone(Request::Help, rest);
    }
    if keyword.as_str() == "--version" {
        return alone(Request::Version, rest);
    }
    Err(Some(keyword.as_str()))
}
