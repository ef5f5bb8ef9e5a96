//! Bodies of imports and corrections.

use crate::telling::{error_text, joined, put, replaced, said};
use std::alloc::Global;
use std::process::Abort;

pub(crate) const DOGS: &str = "\
# sent_id = s1
# text = Dogs bark.
1\tDogs\tdog\tNOUN\t_\tNumber=Plur\t2\tnsubj\t_\t_
2\tbark\tbark\tVERB\t_\t_\t0\troot\t_\tSpaceAfter=No
3\t.\t.\tPUNCT\t_\t_\t2\tpunct\t_\t_

";

const CANNOT: &str = "\
# sent_id = s4
# text = I cannot.
1\tI\tI\tPRON\t_\t_\t2\tnsubj\t_\t_
2\tcannot\tcan\tAUX\t_\t_\t0\troot\t_\tSpaceAfter=No
3\t.\t.\tPUNCT\t_\t_\t2\tpunct\t_\t_

";

/// The same sentence, with its second word split.
const CAN_NOT: &str = "\
# sent_id = s4
# text = I cannot.
1\tI\tI\tPRON\t_\t_\t2\tnsubj\t_\t_
2-3\tcannot\t_\t_\t_\t_\t_\t_\t_\tSpaceAfter=No
2\tcan\tcan\tAUX\t_\t_\t0\troot\t_\t_
3\tnot\tnot\tPART\t_\t_\t2\tadvmod\t_\t_
4\t.\t.\tPUNCT\t_\t_\t2\tpunct\t_\t_

";

const BOOK: &str = "\
# sent_id = s6
# text = the old book on the table in the room
1\tthe\tthe\tDET\t_\t_\t3\tdet\t_\t_
2\told\told\tADJ\t_\t_\t3\tamod\t_\t_
3\tbook\tbook\tNOUN\t_\t_\t0\troot\t_\t_
4\ton\ton\tADP\t_\t_\t6\tcase\t_\t_
5\tthe\tthe\tDET\t_\t_\t6\tdet\t_\t_
6\ttable\ttable\tNOUN\t_\t_\t3\tnmod\t_\t_
7\tin\tin\tADP\t_\t_\t9\tcase\t_\t_
8\tthe\tthe\tDET\t_\t_\t9\tdet\t_\t_
9\troom\troom\tNOUN\t_\t_\t6\tnmod\t_\t_

";

const GO: &str = "\
# sent_id = s7
# text = Go
1\tGo\tgo\tVERB\t_\t_\t0\troot\t_\t_

";

const LETTERS: &str = "\
# sent_id = s8
# text = b b a a z
1\tb\tb\tX\t_\t_\t0\troot\t_\t_
2\tb\tb\tX\t_\t_\t1\tdep\t_\t_
3\ta\ta\tX\t_\t_\t1\tdep\t_\t_
4\ta\ta\tX\t_\t_\t1\tdep\t_\t_
5\tz\tc,\"d\"\tX\t_\t_\t1\tdep\t_\t_

";

/// The file with this name; empty for any other name.
fn file_named(name: &str) -> &'static str {
    match name {
        "dogs" => DOGS,
        "cannot" => CANNOT,
        "can_not" => CAN_NOT,
        "book" => BOOK,
        "go" => GO,
        "letters" => LETTERS,
        _ => "",
    }
}

/// The rows of words 2 to 1000.
fn rows(rt: &impl Abort, alloc: Global) -> String {
    let mut text = String::new(alloc);
    for place in 2..=1000u32 {
        put(rt, &mut text, error_text(rt, alloc, &place).as_str());
        put(rt, &mut text, "\tw\tw\tX\t_\t_\t1\tdep\t_\t_\n");
    }
    text
}

/// A sentence of 1,000 words.
fn thousand(rt: &impl Abort, alloc: Global) -> String {
    let words = " w".repeat(alloc, 1000).expect(rt, "a text");
    let rows = rows(rt, alloc);
    let first = "\n1\tw\tw\tX\t_\t_\t0\troot\t_\t_\n";
    let pieces = [
        "# sent_id = s9\n# text =",
        words.as_str(),
        first,
        rows.as_str(),
        "\n",
    ];
    joined(rt, alloc, &pieces)
}

/// The part at a place, from 0, between colons.
fn part_at(text: &str, place: usize) -> &str {
    text.split(':').nth(place).unwrap_or("")
}

/// The file with this name, in memory of its own.
fn file_of(rt: &impl Abort, alloc: Global, name: &str) -> String {
    if *name == *"thousand" {
        thousand(rt, alloc)
    } else {
        said(rt, alloc, file_named(name))
    }
}

/// A file, as `dogs`, or with one text replaced by another, as `dogs:dog:cat`.
fn edited(rt: &impl Abort, alloc: Global, text: &str) -> String {
    let file = file_of(rt, alloc, part_at(text, 0));
    if text.contains(':') {
        replaced(rt, alloc, file.as_str(), part_at(text, 1), part_at(text, 2))
    } else {
        file
    }
}

/// The body of such files, which pluses separate.
pub(crate) fn body_of(rt: &impl Abort, alloc: Global, text: &str) -> String {
    let mut body = String::new(alloc);
    for part in text.split('+') {
        put(rt, &mut body, edited(rt, alloc, part).as_str());
    }
    body
}
