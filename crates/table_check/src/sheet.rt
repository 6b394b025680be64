// The scan over a table's lines.
ghost use Rattle.std.specs.Prelude.{◌≡◌};
ghost use Rattle.table_line.specs.Line.{line_at};
ghost use Rattle.table_check.specs.Scan.{scan_first, scan_after, zeros_from, scanned_sheet};

use crate::Scan;
use line_order::{Counts, Due};
use model::Model;
use table_line::Line;

// Every word from `at` on is 0. None ends the loop early, so that the compiler can test many at once.
fn zeros(t: &[u32], at: usize) -> bool
    ensures { result ≡ zeros_from t.now at }
{
    let mut all = true;
    for word in &t[at.min(t.len())..] {
        all &= *word == 0;
    }
    all
}

impl Scan {
    #[tactic(auto, unfolding(crate::specs::Scan::scan_first))]
    fn first() -> Scan
        ensures { result ≡ scan_first }
    {
        Scan {
            due: Due::first(),
            counts: Counts::none(),
            at: 0,
        }
    }

    // After a line.
    #[tactic(auto, unfolding(crate::specs::Scan::scan_after))]
    fn after(self, line: Line) -> Scan
        ensures { result ≡ scan_after self line.number line.nodes line.next }
    {
        Scan {
            due: self.due.after(line.number),
            counts: self.counts.after(self.due.key, line.number, line.nodes),
            at: line.next,
        }
    }
}

// Does each line of the table say something that no row refuses, and is the rest 0?
#[tactic(auto, using(crate::proofs::SheetLaws::sheet_laws))]
pub(crate) fn sheet(t: &[u32]) -> bool
    ensures { result ≡ scanned_sheet (line_at t.now) t.now }
{
    let mut scan = Scan::first();
    // Each line takes a word at least, so a table has been read before the rounds are over; the last finds the end.
    for _ in 0..=Model::WORDS {
        if line_order::end(scan.due.key) {
            return zeros(t, scan.at);
        }
        let Some(line) = table_line::read(t, scan.at, scan.due.key, scan.counts) else {
            return false;
        };
        scan = scan.after(line);
    }
    false
}
