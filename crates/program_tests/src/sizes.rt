//! The limit on the bytes of an archive.

use crate::limits::{Limit, must_be_kept};
use program_runs::Piece::{Copies, Once};
use std::test::Fail;

/// The greatest archive has 67,108,864 bytes. The tags of an archive without children are 57 of them, and the others
/// are white.
const BYTES: Limit = Limit {
    front: &[
        Once("<HighSchoolTimetableArchive>"),
        Copies(8_388_600, "        "),
    ],
    met: &[Once("       ")],
    above: &[Once("        ")],
    rest: &[Once("</HighSchoolTimetableArchive>")],
    report: &[Once("archive instances 0 solutions 0\n")],
    refusal: "khe: archive refused: 17 TooLarge\n",
};

#[test]
fn an_archive_has_a_greatest_size(rt: HostRuntime) -> Result<(), Fail> {
    must_be_kept(&rt, rt.alloc(), &[&BYTES])
}
