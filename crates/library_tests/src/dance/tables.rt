//! Every cell of linked tables as they are built.
use crate::dance::keepers::links;
use crate::fixtures::{ALONE, COLOURED};
use std::alloc::Global;
use std::test::Fail;
use xc_dance::{Field, Links};
use xc_input::Kind;

/// The fields, each with its first place.
const FIELDS: [(Field, u32); 8] = [
    (Field::Llink, 0),
    (Field::Rlink, 0),
    (Field::Bound, 1),
    (Field::Slack, 1),
    (Field::Top, 0),
    (Field::Ulink, 0),
    (Field::Dlink, 0),
    (Field::Color, 0),
];

/// The places of all cells of the tests' tables, and some that no table has.
const PLACES: u32 = 40;

/// A text, and for each field all cells of the tables before any move.
struct Tables {
    text: &'static [u8],
    cells: [&'static [i64]; 8],
}

const ROWS: [Tables; 4] = [
    // Its colours have the numbers 1 and 2.
    Tables {
        text: COLOURED,
        cells: [
            &[3, 0, 1, 2, 6, 4, 5],
            &[1, 2, 3, 0, 5, 6, 4],
            &[1, 1, 1],
            &[0, 0, 0],
            &[
                0, 3, 2, 2, 4, 3, 0, 1, 2, 4, 5, -1, 1, 3, 4, 5, -2, 1, 4, -3, 2, 4, -4, 3, 5, -5,
            ],
            &[
                0, 17, 20, 23, 21, 24, 0, 1, 2, 4, 5, 7, 7, 3, 9, 10, 12, 12, 14, 17, 8, 18, 20,
                13, 15, 23,
            ],
            &[
                0, 7, 8, 13, 9, 10, 10, 12, 20, 14, 15, 15, 17, 23, 18, 24, 18, 1, 21, 21, 2, 4,
                24, 3, 5, 0,
            ],
            &[
                0, 0, 0, 0, 0, 0, 0, 0, 0, 0, 1, 0, 0, 0, 1, 0, 0, 0, 2, 0, 0, 1, 0, 0, 2, 0,
            ],
        ],
    },
    // The first item is held one to four times.
    Tables {
        text: b"1:4|A B\nA\nA B\nB\n",
        cells: [
            &[2, 0, 1, 3],
            &[1, 2, 0, 3],
            &[4, 1],
            &[3, 0],
            &[0, 2, 2, 0, 1, -1, 1, 2, -2, 2, -3],
            &[0, 6, 9, 0, 1, 4, 4, 2, 6, 7, 9],
            &[0, 4, 7, 4, 6, 7, 1, 9, 9, 2, 0],
            &[0, 0, 0, 0, 0, 0, 0, 0, 0, 0, 0],
        ],
    },
    // A secondary item, and no option.
    Tables {
        text: b"p | x\n",
        cells: [
            &[1, 0, 3, 2],
            &[1, 0, 3, 2],
            &[1],
            &[0],
            &[0, 0, 0, 0],
            &[0, 1, 2, 0],
            &[0, 1, 2, 0],
            &[0, 0, 0, 0],
        ],
    },
    Tables {
        text: ALONE,
        cells: [
            &[1, 0, 2],
            &[1, 0, 2],
            &[2],
            &[2],
            &[0, 2, 0, 1, -1, 1, -2],
            &[0, 5, 0, 1, 3, 3, 5],
            &[0, 3, 3, 5, 5, 1, 0],
            &[0, 0, 0, 0, 0, 0, 0],
        ],
    },
];

/// Whether each field has these cells from its first place on, and no other.
fn are_tables(links: &Links, tables: &Tables) -> bool {
    for ((field, first), cells) in FIELDS.iter().zip(&tables.cells) {
        for place in 0..PLACES {
            let wanted = match place.checked_sub(*first) {
                Some(before) => cells.get(before as usize).copied(),
                None => None,
            };
            if links.cell(*field, place) != wanted {
                return false;
            }
        }
        if links.cell(*field, u32::MAX).is_some() {
            return false;
        }
    }
    true
}

fn are_built(alloc: Global, tables: &Tables) -> bool {
    match links(alloc, Kind::Bounds, tables.text, 0) {
        Some(links) => are_tables(&links, tables),
        None => false,
    }
}

#[test]
fn tables_are_built(rt: HostRuntime) -> Result<(), Fail> {
    for (row, tables) in ROWS.iter().enumerate() {
        if !are_built(rt.alloc(), tables) {
            return Err(Fail::new(format_args!("row {row}")));
        }
    }
    Ok(())
}
