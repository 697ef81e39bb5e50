//! The rows of a survey.
ghost use Rattle.std.specs.Prelude.{IfOk};
ghost use Rattle.std.specs.List.{All};
ghost use Rattle.sk_survey.specs.Surveys.{Tell};
ghost use Rattle.sk_show.specs.Lines.{first_told, end_told, TellsNamedAlone};

use sk_filter::Chain;
use sk_names::{Architecture, numbers};
use sk_survey::{Row, Surveyor};
use std::alloc::{AllocError, Global};

/// The rows of the numbers that are wanted. A number with a name on the architecture has a row by itself.
pub fn rows_of(
    alloc: Global,
    architecture: Architecture,
    call: Option<u32>,
    chain: &Chain,
) -> Result<Vec<Row>, AllocError>
    ensures rows { IfOk result (λ rows. Tell chain.now (first_told call) (end_told call) rows.items) }
    ensures alone { IfOk result (λ rows. All (TellsNamedAlone architecture) rows.items) }
{
    let mut survey = Surveyor::new(alloc)?;
    match call {
        None => {
            let named = numbers(alloc, architecture)?;
            survey.rows(alloc, chain, &named)
        }
        Some(nr) => {
            let answers = survey.chain(alloc, chain, nr, nr)?;
            Ok(vec![in alloc;
                Row {
                    first: nr,
                    last: nr,
                    answers,
                },
            ]?)
        }
    }
}
