//! The words of the command line.

ghost use Rattle.std.specs.Prelude.{◌≤◌, IfSome};
ghost use Rattle.plainreplay.specs.Words.{AreInRange};

use trace_types::Limits;

const GREATEST_GENERATION: u32 = 7;

const GREATEST_LINE: u32 = 1_073_741_823;

/// What a word may set.
#[derive(Clone, Copy)]
enum Name {
    Generations,
    MaxLines,
}

/// What the words have set so far.
#[derive(Drop)]
struct Chosen {
    generations: Option<u32>,
    max_lines: Option<u32>,
    ghost in_range: { AreInRange generations max_lines },
}

fn name_of(text: &str) -> Option<Name> {
    if text == "--generations" {
        return Some(Name::Generations);
    }
    if text == "--max-lines" {
        return Some(Name::MaxLines);
    }
    None
}

// A number from 1 to the greatest one, without a zero in front of it.
fn number_of(text: &str, greatest: u32) -> Option<u32>
    ensures { IfSome result (λ n. (1 ≤ n) × (n ≤ greatest)) }
{
    if text.starts_with('0') || text.starts_with('+') {
        return None;
    }
    match text.parse::<u32>() {
        Ok(number) if 1 <= number && number <= greatest => Some(number),
        _ => None,
    }
}

impl Chosen {
    // Sets what is named, where it isn't set yet.
    fn with(self, name: Name, text: &str) -> Option<Chosen> {
        match name {
            Name::Generations => match self.generations {
                Some(_) => None,
                None => Some(Chosen {
                    generations: Some(number_of(text, GREATEST_GENERATION)?),
                    max_lines: self.max_lines,
                }),
            },
            Name::MaxLines => match self.max_lines {
                Some(_) => None,
                None => Some(Chosen {
                    generations: self.generations,
                    max_lines: Some(number_of(text, GREATEST_LINE)?),
                }),
            },
        }
    }

    // The limits, where what isn't set is 3 generations and the most lines.
    fn limits(self) -> Limits
        ensures { (1 ≤ result.generations) × (result.generations ≤ 7) × (result.max_lines ≤ 1073741823) }
    {
        Limits {
            sweepers: 1,
            generations: self.generations.unwrap_or(3) as u8,
            max_lines: self.max_lines.unwrap_or(GREATEST_LINE),
        }
    }
}

/// The limits that the words set: `--generations G` with G from 1 to 7 and `--max-lines N` with N from 1 to
/// 1,073,741,823, each at most once and as two words or as `--name=value`. `None` where they are not in this
/// form.
pub fn read_limits(words: &[String]) -> Option<Limits>
    ensures { IfSome result (λ l. (1 ≤ l.generations) × (l.generations ≤ 7) × (l.max_lines ≤ 1073741823)) }
{
    let mut chosen = Chosen {
        generations: None,
        max_lines: None,
    };
    let mut waiting = None;
    for word in words {
        match waiting {
            Some(name) => {
                chosen = chosen.with(name, word.as_str())?;
                waiting = None;
            }
            None => match word.as_str().split_once('=') {
                Some((text, value)) => {
                    let name = name_of(text)?;
                    chosen = chosen.with(name, value)?;
                }
                None => waiting = Some(name_of(word.as_str())?),
            },
        }
    }
    match waiting {
        Some(_) => None,
        None => Some(chosen.limits()),
    }
}
