ghost use Rattle.std.specs.Prelude.{◌≡◌, ℕ, length, Some};
ghost use Rattle.std.specs.Option.{option_map};
ghost use Rattle.line.specs.Calls.{fitting, laid};
ghost use Rattle.line.specs.Sheet.{sheet_rule};
ghost use Rattle.line.specs.Sheets.{held_by};

use crate::laying::lay;
use crate::peer::{MAX_ANSWER, Peer};
use crate::peer_line::PeerLine;
use crate::record::Trust;
use crate::sheet::Sheet;
use crate::visit::Visit;

// Lays a text at the front of a buffer, whose rest stays; its length, or none where it is too long, and all stays.
fn lay_fitting(buffer: &mut [u8; MAX_ANSWER], text: &[u8]) -> Option<usize>
    ensures len { result ≡ option_map length (fitting (Some text.now)) }
    ensures laid { buffer.new ≡ laid (fitting (Some text.now)) buffer.old }
{
    if text.len() > MAX_ANSWER {
        return None;
    }
    Some(lay(buffer, 0, text))
}

// A host that answers from a sheet: the reply by how many pieces are clear and covered; the name does not matter.
impl<'s> Peer for Sheet<'s> {
    ghost rule = { λ s. sheet_rule (held_by s) };

    fn reply(&self, visit: Visit, buffer: &mut [u8; MAX_ANSWER]) -> Option<usize> {
        let text = self.reply(visit.number, visit.clear, visit.covered)?;
        lay_fitting(buffer, text)
    }

    fn handshake(&self, visit: Visit, names: &mut [u8; MAX_ANSWER]) -> Option<(Trust, usize)> {
        let shaken = self.handshake(visit.number)?;
        let n = lay_fitting(names, shaken.names)?;
        Some((shaken.trust, n))
    }
}

// A line whose host answers from a sheet.
pub type SheetLine<'s, 'o> = PeerLine<'o, Sheet<'s>>;
