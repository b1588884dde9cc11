//! The forms of words that the program has.
ghost use Rattle.std.specs.Prelude.{IfNone, IfSome, map, string_bytes};
ghost use Rattle.pv_top.specs.Words.{IsCheck, AreOfCheck, AreOfTwo, IsCommand, Spells};

/// A command with its words.
#[derive(Clone, Copy, Debug, PartialEq, Eq)]
pub enum Command<'a> {
    /// `check CASE`: decides the case, and keeps a certificate of the verdict.
    Check { case: &'a str },
    /// `recheck CASE CERTIFICATE`: checks the certificate against the case.
    Recheck { case: &'a str, certificate: &'a str },
    /// `replay CASE TRACE`: replays the trace on the case's project.
    Replay { case: &'a str, trace: &'a str },
    /// `show CASE TRACE`: replays the trace, and tells what each scan does.
    Show { case: &'a str, trace: &'a str },
}

/// The file of the case where the words are those of a check.
fn read_check(words: &[String]) -> Option<&str>
    ensures some { IfSome result (λ case. IsCheck (map string_bytes words.now) case.now) }
    ensures none { IfNone result (AreOfCheck (map string_bytes words.now) → ⊥) }
{
    match words {
        [verb, case] if verb.as_str() == "check" => Some(case.as_str()),
        _ => None,
    }
}

/// The command that the words spell, if it is one of those that name two files.
fn read_two(words: &[String]) -> Option<Command<'_>>
    ensures some { IfSome result (λ command. Spells (map string_bytes words.now) command) }
    ensures none { IfNone result (AreOfTwo (map string_bytes words.now) → ⊥) }
{
    match words {
        [verb, case, trace] if verb.as_str() == "replay" => Some(Command::Replay {
            case: case.as_str(),
            trace: trace.as_str(),
        }),
        [verb, case, certificate] if verb.as_str() == "recheck" => Some(Command::Recheck {
            case: case.as_str(),
            certificate: certificate.as_str(),
        }),
        [verb, case, shown] if verb.as_str() == "show" => Some(Command::Show {
            case: case.as_str(),
            trace: shown.as_str(),
        }),
        _ => None,
    }
}

/// The command that the words spell, if they have one of the forms. Nothing stands before or after it: there are no options.
pub fn read_words(words: &[String]) -> Option<Command<'_>>
    ensures some { IfSome result (λ command. Spells (map string_bytes words.now) command) }
    ensures none { IfNone result (IsCommand (map string_bytes words.now) → ⊥) }
{
    match read_check(words) {
        Some(case) => Some(Command::Check { case }),
        None => read_two(words),
    }
}
