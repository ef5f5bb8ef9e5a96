//! The order of tests: each fault of a command alone, and each pair of faults that can hold at once, of which the
//! first is reported. Another program made the expected answers from the order.

use crate::cases::assert_alternatives;
use crate::faulty::Faulty;

/// An event that only the worker may ask for, and one that only others may; `worker` is the wrong user. An import and
/// a correction, in whose body a line that cannot be read follows the sentences, and the first sentence breaks the
/// rule. A pull and a restore. A repeated correction is always stale and changes nothing, so these two faults come
/// with it.
const CASES: &str = "\
    submit => submitted\n\
    (submit|adjudicate) name(| user| batch| state| worker| full) => refused 1 BadName\n\
    (submit|adjudicate) user(| batch| state| worker| full) => refused 1 BadName\n\
    (submit|adjudicate) batch(| full) => refused 2 NoSuchBatch\n\
    (submit|adjudicate) state(| worker| full) => refused 4 WrongState released\n\
    submit worker(| full) => refused 5 NotYours\n\
    (submit|adjudicate) full => refused 17 Full\n\
    adjudicate => adjudicated\n\
    adjudicate worker(| full) => refused 6 OwnWork\n\
    import => imported\n\
    import name(| user| again| line| rule| empty| taken| stands| crowded| full) => refused 1 BadName\n\
    import user(| again| line| rule| empty| taken| stands| crowded| full) => refused 1 BadName\n\
    import again(| stands| crowded| full) => repeat\n\
    import line(| rule| taken| stands| crowded| full) => refused 8 Read 5 4\n\
    import rule(| taken| stands| crowded| full) => refused 9 Rule 1 4 1\n\
    import empty(| taken| full) => refused 10 Empty\n\
    import taken(| stands| crowded| full) => refused 15 NameTaken\n\
    import stands(| crowded| full) => refused 16 SentIdTaken 1\n\
    import crowded(| full) => refused 17 Full\n\
    import full => refused 17 Full\n\
    correct => corrected\n\
    correct user(| sentence| again| pulled| state| other| own| stale| line| rule| empty| two| id| text| same| full) => refused 1 BadName\n\
    correct sentence(| line| rule| empty| two| full) => refused 3 NoSuchSentence\n\
    correct again(| pulled| state| other| own| full) => repeat\n\
    correct pulled(| state| other| own| stale| line| rule| empty| two| id| text| same| full) => refused 4 WrongState withdrawn\n\
    correct state(| other| own| stale| line| rule| empty| two| id| text| same| full) => refused 4 WrongState released\n\
    correct other(| stale| line| rule| empty| two| id| text| same| full) => refused 5 NotYours\n\
    correct own(| stale| line| rule| empty| two| id| text| same| full) => refused 6 OwnWork\n\
    correct stale(| line| rule| empty| two| id| text| same| full) => refused 7 Stale 3\n\
    correct line(| rule| id| text| same| full) => refused 8 Read 5 4\n\
    correct rule(| two| id| text| full) => refused 9 Rule 1 4 1\n\
    correct empty(| full) => refused 10 Empty\n\
    correct two(| id| text| same| full) => refused 11 NotOne\n\
    correct id(| text| full) => refused 12 SentIdChanged\n\
    correct text(| full) => refused 13 TextChanged\n\
    correct same(| full) => refused 14 NothingChanged\n\
    correct full => refused 17 Full\n\
    correct line two => refused 8 Read 9 4\n\
    pull => pulled\n\
    pull user(| sentence| state| pulled| full) => refused 1 BadName\n\
    (pull|restore) sentence(| full) => refused 3 NoSuchSentence\n\
    pull state(| pulled| full) => refused 4 WrongState withdrawn\n\
    pull pulled(| full) => refused 20 Pulled\n\
    (pull|restore) full => refused 17 Full\n\
    restore => submitted\n\
    restore user(| sentence| state| here| full) => refused 1 BadName\n\
    restore state(| here| full) => refused 4 WrongState withdrawn\n\
    restore here(| full) => refused 21 NotPulled\n";

#[test]
fn commands_tell_the_first_fault(rt: HostRuntime) {
    assert_alternatives(&rt, rt.alloc(), &Faulty, CASES, 226)
}
