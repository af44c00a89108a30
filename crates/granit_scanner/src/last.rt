//! Whether the last lexeme of some items is a directive.
ghost use Rattle.std.specs.Prelude.{◌≡◌, Bool, suc, drop};
ghost use Rattle.granit_items.specs.ItemViews.{item_view, kind_view};
ghost use Rattle.granit_reader.specs.Meets.{behind_met};
ghost use Rattle.granit_restart.specs.Header as header;
ghost use Rattle.granit_scanner.specs.Scans.{TellsLast};

use granit_items::{Item, LexemeKind, is_directive};
use granit_queue::Queue;
use granit_reader::Met;

/// The last lexeme of the items from there on.
pub(crate) fn last_behind(queue: &Queue<'_>, older: usize) -> Met
    ensures { TellsLast result (drop older queue.now) }
{
    let count = queue.len();
    let mut met = Met::Nothing;
    let mut behind = older;
    'items: while behind < count {
        met = met_at(queue, behind, met);
        behind += 1;
    }
    met
}

/// One item on.
fn met_at(queue: &Queue<'_>, older: usize, met: Met) -> Met
    ensures { (before : Bool) → header.ends_in_directive (behind_met result before) (drop (suc older) queue.now)
        ≡ header.ends_in_directive (behind_met met before) (drop older queue.now) }
{
    match queue.get(older) {
        None => met,
        Some(queued) => met_on(met, &queued.item),
    }
}

fn met_on(met: Met, item: &Item<'_>) -> Met
    ensures { (before : Bool) → behind_met result before
        ≡ header.last_is_directive (behind_met met before) (item_view item.now) }
{
    match item {
        Item::Lexeme(lexeme) => met_as(&lexeme.kind),
        Item::Note(_) => met,
    }
}

fn met_as(kind: &LexemeKind<'_>) -> Met
    ensures { (before : Bool) → behind_met result before ≡ header.is_directive (kind_view kind.now) }
{
    if is_directive(kind) {
        Met::Directive
    } else {
        Met::Another
    }
}

/// Whether directives are being read behind what was met, by whether they are before it.
pub(crate) fn is_behind(met: Met, before: bool) -> bool
    ensures { result ≡ behind_met met before }
{
    match met {
        Met::Nothing => before,
        Met::Directive => true,
        Met::Another => false,
    }
}
