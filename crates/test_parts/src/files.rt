//! Small files that the examples use. `docs/guide/FORMAT.md` names the first three D, V and C.

use crate::cases::cut;
use crate::samples::{ARABIC, CHINESE, ENGLISH, HINDI, RUSSIAN};
use crate::telling::{put, replaced};
use std::alloc::Global;
use std::process::Abort;

/// Three words.
pub(crate) const DOGS_BARK: &str = "\
    # sent_id = s1\n\
    # text = Dogs bark.\n\
    1\tDogs\tdog\tNOUN\t_\tNumber=Plur\t2\tnsubj\t_\t_\n\
    2\tbark\tbark\tVERB\t_\t_\t0\troot\t_\tSpaceAfter=No\n\
    3\t.\t.\tPUNCT\t_\t_\t2\tpunct\t_\t_\n\
    \n";

/// Two multiword tokens and five words: the Spanish example of the CoNLL-U format page.
pub(crate) const VAMONOS: &str = "\
    # sent_id = s2\n\
    # text = vámonos al mar\n\
    1-2\tvámonos\t_\t_\t_\t_\t_\t_\t_\t_\n\
    1\tvamos\tir\tVERB\t_\t_\t0\troot\t_\t_\n\
    2\tnos\tnosotros\tPRON\t_\t_\t1\tobj\t_\t_\n\
    3-4\tal\t_\t_\t_\t_\t_\t_\t_\t_\n\
    3\ta\ta\tADP\t_\t_\t5\tcase\t_\t_\n\
    4\tel\tel\tDET\t_\t_\t5\tdet\t_\t_\n\
    5\tmar\tmar\tNOUN\t_\t_\t1\tobl\t_\t_\n\
    \n";

/// Six words, an empty node and enhanced dependencies, after an example of the CoNLL-U format page.
pub(crate) const COFFEE_AND_TEA: &str = "\
    # sent_id = s3\n\
    # text = Sue likes coffee and Bill tea\n\
    1\tSue\tSue\tPROPN\t_\t_\t2\tnsubj\t2:nsubj\t_\n\
    2\tlikes\tlike\tVERB\t_\t_\t0\troot\t0:root\t_\n\
    3\tcoffee\tcoffee\tNOUN\t_\t_\t2\tobj\t2:obj\t_\n\
    4\tand\tand\tCCONJ\t_\t_\t5\tcc\t5.1:cc\t_\n\
    5\tBill\tBill\tPROPN\t_\t_\t2\tconj\t5.1:nsubj\t_\n\
    5.1\tlikes\tlike\tVERB\t_\t_\t_\t_\t2:conj\t_\n\
    6\ttea\ttea\tNOUN\t_\t_\t5\torphan\t5.1:obj\t_\n\
    \n";

/// Nine words: noun phrases.
const BOOK: &str = "\
    # sent_id = s6\n\
    # text = the old book on the table in the room\n\
    1\tthe\tthe\tDET\t_\t_\t3\tdet\t_\t_\n\
    2\told\told\tADJ\t_\t_\t3\tamod\t_\t_\n\
    3\tbook\tbook\tNOUN\t_\t_\t0\troot\t_\t_\n\
    4\ton\ton\tADP\t_\t_\t6\tcase\t_\t_\n\
    5\tthe\tthe\tDET\t_\t_\t6\tdet\t_\t_\n\
    6\ttable\ttable\tNOUN\t_\t_\t3\tnmod\t_\t_\n\
    7\tin\tin\tADP\t_\t_\t9\tcase\t_\t_\n\
    8\tthe\tthe\tDET\t_\t_\t9\tdet\t_\t_\n\
    9\troom\troom\tNOUN\t_\t_\t6\tnmod\t_\t_\n\
    \n";

/// One word.
const GO: &str = "\
    # sent_id = s7\n\
    # text = Go\n\
    1\tGo\tgo\tVERB\t_\t_\t0\troot\t_\t_\n\
    \n";

/// Five words, one with a lemma that CSV quotes.
const LETTERS: &str = "\
    # sent_id = s8\n\
    # text = b b a a z\n\
    1\tb\tb\tX\t_\t_\t0\troot\t_\t_\n\
    2\tb\tb\tX\t_\t_\t1\tdep\t_\t_\n\
    3\ta\ta\tX\t_\t_\t1\tdep\t_\t_\n\
    4\ta\ta\tX\t_\t_\t1\tdep\t_\t_\n\
    5\tz\tc,\"d\"\tX\t_\t_\t1\tdep\t_\t_\n\
    \n";

/// "the old big sea the boat".
pub(crate) const BOAT: &str = "\
    1\tthe\t_\tDET\t_\t_\t_\t_\t_\t_\n\
    2\told\t_\tADJ\t_\t_\t_\t_\t_\t_\n\
    3\tbig\t_\tADJ\t_\t_\t_\t_\t_\t_\n\
    4\tsea\t_\tNOUN\t_\t_\t_\t_\t_\t_\n\
    5\tthe\t_\tDET\t_\t_\t_\t_\t_\t_\n\
    6\tboat\t_\tNOUN\t_\t_\t_\t_\t_\t_\n\
    \n";

/// The text with this name; empty for any other name.
fn text_named(name: &str) -> &'static str {
    match name {
        "D" => DOGS_BARK,
        "V" => VAMONOS,
        "C" => COFFEE_AND_TEA,
        "book" => BOOK,
        "go" => GO,
        "letters" => LETTERS,
        "arabic" => ARABIC,
        "chinese" => CHINESE,
        "english" => ENGLISH,
        "hindi" => HINDI,
        "russian" => RUSSIAN,
        "line-feed" => "\n",
        "x" => "x",
        _ => "",
    }
}

/// The texts with these names, which spaces separate, one after another.
pub(crate) fn file_of(rt: &impl Abort, alloc: Global, names: &str) -> String {
    let mut file = String::new(alloc);
    for name in names.split(' ') {
        put(rt, &mut file, text_named(name));
    }
    file
}

/// The text with a line feed in the place of each `¶`, since a case is one line.
pub(crate) fn unfolded(rt: &impl Abort, alloc: Global, text: &str) -> String {
    replaced(rt, alloc, text, "¶", "\n")
}

/// The file, with the first text before ` -> ` changed to the text after it.
pub(crate) fn changed(rt: &impl Abort, alloc: Global, file: &str, change: &str) -> String {
    let (old, new) = cut(rt, change, " -> ");
    file.replacen(alloc, old, new, 1).expect(rt, change)
}
