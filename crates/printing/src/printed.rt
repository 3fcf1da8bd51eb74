// From bytes to the characters that the record program prints.
ghost use Rattle.std.specs.Prelude.{◌≡◌, [], ◌≤◌, length};
ghost use Rattle.scope.specs.Entries.{opened};
ghost use Rattle.scope.specs.Keys.{is_name};
ghost use Rattle.lexer.specs.Flags.{no_flags};
ghost use Rattle.lexer.specs.Token.{read_token};
ghost use Rattle.lexer.specs.TokenType as type;
ghost use Rattle.runs.specs.Run.{run_items};
ghost use Rattle.runs.specs.Print as spec;
ghost use Rattle.printing.specs.Room.{max_input};

use crate::line;
use crate::output::Output;
use crate::print::MAX_INPUT;
use lexer::flags::Flags;
use lexer::token_type::TokenType;
use runs::item::Item;
use runs::record::Record;
use runs::room::Room;
use scope::lent::Lent;
use scope::scope::{Scope, Slot};
use text::refusal::Refusal;

// Writes the lines of a text's record. The default scope has no names, so its rows are never read.
fn put_record(text: &[u32], out: &mut Output)
    requires { (length text.now ≤ max_input) × (out.old ≡ []) }
    ensures { out.new ≡ spec.lines 0 (run_items (read_token (is_name opened)) type.StartExpression no_flags text.now) }
{
    let slots = [[0; Slot::NUMBERS]; Scope::ROWS];
    let names = [[0; Scope::MAX_NAME]; Scope::ROWS];
    let scope = Lent {
        counts: Scope::opened(),
        slots: &slots,
        names: &names,
    };
    let mut rows = [[0; Item::NUMBERS]; MAX_INPUT + 2];
    let mut store = [0; MAX_INPUT];
    let mut scratch = [0; 2 * MAX_INPUT];
    let mut room = Room {
        rows: &mut rows,
        store: &mut store,
        scratch: &mut scratch,
    };
    let start = u32::from(TokenType::StartExpression);
    if let Ok(counts) = runs::run::run(text, start, Flags::default(), scope, &mut room) {
        let record = Record {
            rows: &rows[..counts.items],
            store: &store,
        };
        line::put_lines(record, out);
    }
}

// Writes all that the record program prints for some bytes.
// Ruled out, among others: a line for a text that is not well-formed; one item where there are more.
pub fn put_printed(bytes: &[u8], out: &mut Output)
    requires { out.old ≡ [] }
    ensures { out.new ≡ spec.printed bytes.now }
{
    if MAX_INPUT < bytes.len() {
        return line::put_refused(Refusal::TooLong, 0, out);
    }
    let mut cells = [0; MAX_INPUT];
    match text::utf8::open_bytes(bytes, &mut cells) {
        Ok(text) => put_record(&cells[..text.chars], out),
        Err(refused) => line::put_refused(refused.refusal, refused.place, out),
    }
}
