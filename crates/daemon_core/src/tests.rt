//! Scripts: tables of chains on a device of their own, one after another.

mod cases;
mod checks;
mod data;
mod devices;
mod naming;
mod sessions;
mod wire;

use checks::{ANY_NODE, INTERVALS, NAMES_AND_HANDLES, SIZES_BYTES_AND_MAPPINGS};
use data::{CARRIED_OUT, EARLY, REFUSED, TURNS};
use devices::{Way, odd_in};
use naming::{ENTRIES, FILL, FORGOTTEN, HANDLES, LOOKUPS, MADE_FILES, TWO_SESSIONS};
use sessions::{BEGIN, SESSION};
use std::test::Fail;
use wire::{PARTS, PAST, PIECES, STEPS, WHOLE};

const SCRIPTS: [&[(Way, &str)]; 13] = [
    &[(Way::Serve, SESSION)],
    &[(Way::Serve, PARTS), (Way::Serve, STEPS)],
    &[(Way::Serve, BEGIN), (Way::Serve, NAMES_AND_HANDLES)],
    &[(Way::Serve, BEGIN), (Way::Serve, SIZES_BYTES_AND_MAPPINGS)],
    // One interval that is none keeps all of them from being cleared.
    &[
        (Way::Serve, BEGIN),
        (Way::Serve, INTERVALS),
        (Way::Page, "stays; 4096; 2; 0; W"),
        (Way::Serve, ANY_NODE),
        (Way::Page, "cleared; 4096"),
    ],
    &[(Way::Serve, BEGIN), (Way::Serve, LOOKUPS)],
    &[(Way::Serve, BEGIN), (Way::Serve, MADE_FILES)],
    &[(Way::Serve, BEGIN), (Way::Serve, ENTRIES)],
    &[
        (Way::Serve, BEGIN),
        (Way::Fill, FILL),
        (Way::Serve, HANDLES),
    ],
    &[
        (Way::Serve, BEGIN),
        (Way::Serve, TWO_SESSIONS),
        (Way::Page, "cleared; 0"),
    ],
    &[
        (Way::Serve, BEGIN),
        (Way::Serve, FORGOTTEN),
        (Way::Page, "mapped; 8193; 3; 4097; R"),
    ],
    &[
        (Way::Serve, BEGIN),
        (Way::Serve, PAST),
        (Way::Page, "past; 6295552"),
        (Way::Serve, WHOLE),
        (Way::Pieces, PIECES),
        (Way::Page, PAGES),
    ],
    &[
        (Way::Stay, EARLY),
        (Way::Serve, BEGIN),
        (Way::Turn, TURNS),
        (Way::Stay, CARRIED_OUT),
        (Way::Page, "cleared; 4095"),
        (Way::Page, "mapped; 4096; 2; 4096; W"),
        (Way::Stay, REFUSED),
    ],
];

// What 2 MiB of node 2 from 2 MiB on are mapped to at 4 MiB of the window.
const PAGES: &str = "
before; 4194303
first; 4194304; 2; 2097152; W
last; 6291455; 2; 4194303; W
after; 6291456
";

#[test]
fn scripts(rt: HostRuntime) -> Result<(), Fail> {
    for script in SCRIPTS {
        assert_eq!(rt; odd_in(rt.alloc(), script)?, None);
    }
    Ok(())
}
