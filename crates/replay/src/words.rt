// The words of the command line.
ghost use Rattle.std.specs.Prelude.{◌≡◌, ◌↔◌, Some, None, Err, IfOk};
ghost use Rattle.replay.specs.Words.{IsInRange, words_of};

use trace_types::Limits;

/// What the words of the command line ask for.
#[derive(Clone, Copy, Debug, PartialEq, Eq)]
pub struct Words {
    pub limits: Limits,
    /// The number and the count of lines of a workload, where one is asked for.
    pub workload: Option<(u32, u32)>,
}

/// Why words were refused.
#[derive(Clone, Copy, Debug, PartialEq, Eq)]
pub enum WordsError {
    /// The words are not in form.
    Usage,
    /// Memory ran out.
    NoMemory,
}

/// What the words ask for. So far only the empty list is in form, with 1 sweeper, 3 generations and 1,073,741,823 lines.
pub fn read_words(words: &[String]) -> Result<Words, WordsError>
    ensures ok { IfOk result (λ w. words_of words.now ≡ Some w) }
    ensures in_range { IfOk result (λ w. IsInRange w.limits) }
    ensures usage { (result ≡ Err WordsError.Usage) ↔ (words_of words.now ≡ None) }
{
    match words {
        [] => Ok(Words {
            limits: Limits {
                sweepers: 1,
                generations: 3,
                max_lines: 1_073_741_823,
            },
            workload: None,
        }),
        [_, ..] => Err(WordsError::Usage),
    }
}
