//! The laws of the libraries, each called once.

use tb_check::{one_reply_is_true, the_first_fault_is_reported};
use tb_conllu::{
    a_file_begins_one_way, a_file_is_read_in_order, fault_after_sentences, faulty_line_is_dead,
    faulty_lines_are_reported, one_fault_is_reported, one_list_has_a_text, read_lines_are_alive,
    reported_bytes_are_no_file,
};
use tb_rules::{
    a_broken_rule_is_not_kept, a_fault_stays, broken_rules_are_reported,
    broken_rules_of_a_file_are_reported, faulty_sentences_are_not_valid, one_rule_is_reported,
    one_sentence_is_reported,
};

#[test]
fn laws_are_called(_rt: HostRuntime) {
    faulty_line_is_dead();
    read_lines_are_alive();
    one_list_has_a_text();
    a_file_begins_one_way();
    a_file_is_read_in_order();
    fault_after_sentences();
    reported_bytes_are_no_file();
    one_fault_is_reported();
    faulty_lines_are_reported();
    a_broken_rule_is_not_kept();
    one_rule_is_reported();
    faulty_sentences_are_not_valid();
    one_sentence_is_reported();
    a_fault_stays();
    broken_rules_are_reported();
    broken_rules_of_a_file_are_reported();
    the_first_fault_is_reported();
    one_reply_is_true();
}
