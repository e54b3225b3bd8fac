// A node list put into lent room as JSON text (02, par. 1): counted before a byte is written; where it does not fit, refusal 13 with the bytes needed and
// the room as it was.
#![tactic(auto)]

ghost use Rattle.std.specs.Prelude.{false};
ghost use Rattle.match_list.specs.Nodes.{nodes_at, room_of};
ghost use Rattle.write_leaves.specs.steps.Printed.{called};
ghost use Rattle.write_put.specs.steps.Puts.{Put};
ghost use Rattle.grammar_table.specs.Table.{symbol_count};
ghost use Rattle.tree_json.specs.Json.{json_text};
ghost use Rattle.tree_write.specs.steps.Lists.{list_checks, WroteList};

use grammar_table::Table;
use prepare::Verdict;
use tree_list::INPUT_MOST;
use write_put::Written;

pub mod nodes;
pub mod values;

// The text of all nodes of the words at the front of the room; t holds the names.
pub fn put_json(t: &Table, input: &[u8], nodes: &[u32], out: &mut [u8]) -> Written
    ensures { Put (json_text (called false t.now) input.now (nodes_at nodes.now 0 (room_of nodes.now)))
        out.old out.new result }
{
    write_put::answer(write_text::texts::put(out, |pen| nodes::text(t, input, nodes, pen)))
}

// A node list as text, once its grammar is prepared in t: 9, 15, then 13.
pub fn write_list(t: &Table, input: &[u8], nodes: &[u32], out: &mut [u8]) -> Written
    ensures { WroteList (list_checks (symbol_count t.now) input.now nodes.now)
        (json_text (called false t.now) input.now (nodes_at nodes.now 0 (room_of nodes.now)))
        out.old out.new result }
{
    if INPUT_MOST < input.len() {
        return write_put::not_written(Verdict::Refused {
            number: 9,
            place: INPUT_MOST,
        });
    }
    match tree_list::bad_node(nodes, prepare::symbols(t), input.len()) {
        None => put_json(t, input, nodes, out),
        Some(place) => write_put::not_written(Verdict::Refused { number: 15, place }),
    }
}
