// The contacts of a line, read one by one and held behind the stars that are held already, and the least size behind them.
ghost use Rattle.std.specs.Prelude.{◌≡◌, ◌-◌, IfOk};
ghost use Rattle.floor.specs.JobTexts.{contacts};
ghost use Rattle.job_texts.specs.Reads.{piece_of, piece_in, put_contacts, row_of};

use crate::entries::Held;
use crate::{Contact, Lack, Measure, Row, sizes, values, words};

// The contact in front of a text: a side and a neighbour, and the text of the next thing.
fn contact_in(text: &[u8]) -> Result<Contact<'_>, Lack>
    ensures { piece_in result ≡ piece_of text.now }
{
    let kind = values::kind_of_word(words::word(text)).ok_or(Lack::Side)?;
    let second = words::next(text);
    let to = values::vertex_of_word(words::word(second)).ok_or(Lack::Neighbour)?;
    Ok(Contact {
        to,
        kind,
        rest: words::next(second),
    })
}

// The contacts of a line, held behind those that are held already, and the least size behind them.
pub fn hold_contacts(text: &[u8], mut held: Held) -> Result<Row, Lack>
    ensures { (row_of result ≡ put_contacts held (contacts (360 - held.next) text.now)) × IfOk result (λ r. r.held.stars.count ≡ held.stars.count) }
{
    let mut rest = text;
    // How many contacts a line has only its text says.
    loop {
        if sizes::begins(rest) {
            let size = sizes::size_in(words::next(rest)).ok_or(Lack::LeastSize)?;
            return Ok(Row { held, size });
        }
        if 360 <= held.next {
            return Err(Lack::NoContact);
        }
        let contact = contact_in(rest)?;
        held = held.with_entry(contact.to, contact.kind);
        let Some((mark, behind)) = contact.rest.split_first() else {
            return Ok(Row {
                held,
                size: Measure::ONE,
            });
        };
        if *mark != b',' {
            return Err(Lack::Comma);
        }
        rest = words::skip(behind);
    }
}
