//! Commands and questions, each with its answer. A script is for a new desk. Its first line has the desk's limits of
//! sentences, moves and hits. An empty line separates two scripts.

/// Batches that go through their states, with corrections and pulls.
pub(crate) const WORK: &str = "\
    1000 1000 1000\n\
    import b1 ann nothing => refused 10 Empty\n\
    import b1  dogs => refused 1 BadName\n\
    assign b9 ann => refused 2 NoSuchBatch\n\
    assign b/9 ann => refused 1 BadName\n\
    pull 1 ann => refused 3 NoSuchSentence\n\
    restore 1 ann => refused 3 NoSuchSentence\n\
    correct 1 1 ann go => refused 3 NoSuchSentence\n\
    revision 1 1 => refused 3 NoSuchSentence\n\
    search longest 5 [] => 0 hits 0;\n\
    batches => 0 no,name,state,worker,first,sentences,words,pulled,pulled_words;\n\
    revisions 1 => refused 3 NoSuchSentence\n\
    sentences b1 => refused 2 NoSuchBatch\n\
    sentences b/1 => refused 1 BadName\n\
    sentences  => refused 1 BadName\n\
    find s1 => refused 3 NoSuchSentence\n\
    standing => desk\n\
    \n\
    1000 1000 1000\n\
    import b1 ann dogs => imported batch=1 first=1 sentences=1 words=3\n\
    import b1 ann dogs => imported batch=1 first=1 sentences=1 words=3\n\
    import b1 ann dogs:dog:cat => refused 15 NameTaken\n\
    import b2 ann dogs => refused 16 SentIdTaken 1\n\
    import b2 ann go+dogs => refused 16 SentIdTaken 2\n\
    submit b1 ann => refused 4 WrongState open\n\
    assign b1 ann => moved batch=1 state=assigned sentences=1 words=3\n\
    submit b1 ben => refused 5 NotYours\n\
    submit b1 ann => moved batch=1 state=submitted sentences=1 words=3\n\
    adjudicate b1 ann => refused 6 OwnWork\n\
    adjudicate b1 ben => moved batch=1 state=adjudicated sentences=1 words=3\n\
    release b1 cem => moved batch=1 state=released sentences=1 words=3\n\
    assign b9 ann => refused 2 NoSuchBatch\n\
    withdraw b1 cem => moved batch=1 state=withdrawn sentences=1 words=3\n\
    search longest 5 [] => 0 hits 0;\n\
    withdraw b1 cem => refused 4 WrongState withdrawn\n\
    reopen b1 ben => moved batch=1 state=open sentences=1 words=3\n\
    search longest 5 [] => 0 hits 0;\n\
    assign b1 dan => moved batch=1 state=assigned sentences=1 words=3\n\
    standing => desk assigned,1,3 1,import,1,0,none,open,1,0,3,ann 2,assign,1,0,open,assigned,1,3,3,ann 3,submit,1,0,assigned,submitted,1,3,3,ann \
    4,adjudicate,1,0,submitted,adjudicated,1,3,3,ben 5,release,1,0,adjudicated,released,1,3,3,cem 6,withdraw,1,0,released,withdrawn,1,3,3,cem \
    7,reopen,1,0,withdrawn,open,1,3,3,ben 8,assign,1,0,open,assigned,1,3,3,dan\n\
    \n\
    1000 1000 1000\n\
    import b4 ann cannot => imported batch=1 first=1 sentences=1 words=3\n\
    assign b4 ann => moved batch=1 state=assigned sentences=1 words=3\n\
    correct 1 1 ann can_not => corrected sentence=1 rev=2 words=4\n\
    correct 1 1 ann can_not => corrected sentence=1 rev=2 words=4\n\
    correct 1 1 ann cannot => refused 7 Stale 2\n\
    correct 1 2 ann can_not => refused 14 NothingChanged\n\
    correct 1 1 ben can_not => refused 5 NotYours\n\
    revisions 1 => 2 rev,who,kind,move;1,ann,import,1;2,ann,correct,3;\n\
    correct 1 2 ann dogs => refused 12 SentIdChanged\n\
    correct 1 2 ann can_not:.:! => refused 13 TextChanged\n\
    correct 1 2 ann can_not+dogs => refused 11 NotOne\n\
    revision 1 3 => refused 18 NoSuchRevision\n\
    revision 2 1 => refused 3 NoSuchSentence\n\
    revisions 0 => refused 3 NoSuchSentence\n\
    revisions 2 => refused 3 NoSuchSentence\n\
    submit b4 ann => moved batch=1 state=submitted sentences=1 words=4\n\
    correct 1 1 ann can_not => corrected sentence=1 rev=2 words=4\n\
    import b4 ann cannot => imported batch=1 first=1 sentences=1 words=3\n\
    standing => desk submitted,1,4 1,import,1,0,none,open,1,0,3,ann 2,assign,1,0,open,assigned,1,3,3,ann 3,correct,1,1,assigned,assigned,1,3,4,ann \
    4,submit,1,0,assigned,submitted,1,4,4,ann\n\
    correct 1 2 ben cannot => corrected sentence=1 rev=3 words=3\n\
    import b7 ann go+dogs => imported batch=2 first=2 sentences=2 words=4\n\
    assign b7 cem => moved batch=2 state=assigned sentences=2 words=4\n\
    correct 3 1 cem dogs:dog:cat => corrected sentence=3 rev=2 words=3\n\
    pull 3 dan => pulled sentence=3 words=3\n\
    sentences b7 => 2 no,sent_id,rev,who,words,pulled,text;2,s7,1,ann,1,no,Go;3,s1,2,cem,3,yes,Dogs bark.;\n\
    find s1 => 3 no,batch,rev,words,pulled;3,b7,2,3,yes;\n\
    restore 3 dan => restored sentence=3 state=assigned words=3\n\
    revisions 1 => 3 rev,who,kind,move;1,ann,import,1;2,ann,correct,3;3,ben,correct,5;\n\
    revisions 2 => 1 rev,who,kind,move;1,ann,import,6;\n\
    revisions 3 => 2 rev,who,kind,move;1,ann,import,6;2,cem,correct,8;\n\
    revisions 4 => refused 3 NoSuchSentence\n\
    sentences b4 => 1 no,sent_id,rev,who,words,pulled,text;1,s4,3,ben,3,no,I cannot.;\n\
    find s4 => 1 no,batch,rev,words,pulled;1,b4,3,3,no;\n\
    find s7 => 2 no,batch,rev,words,pulled;2,b7,1,1,no;\n\
    find s9 => refused 3 NoSuchSentence\n\
    sentences b7 => 2 no,sent_id,rev,who,words,pulled,text;2,s7,1,ann,1,no,Go;3,s1,2,cem,3,no,Dogs bark.;\n\
    sentences b1 => refused 2 NoSuchBatch\n\
    \n\
    1000 1000 1000\n\
    import b1 ann dogs+go => imported batch=1 first=1 sentences=2 words=4\n\
    pull 2 dan => pulled sentence=2 words=1\n\
    pull 2 dan => refused 20 Pulled\n\
    assign b1 ann => moved batch=1 state=assigned sentences=1 words=3\n\
    batches => 1 no,name,state,worker,first,sentences,words,pulled,pulled_words;1,b1,assigned,ann,1,1,3,1,1;\n\
    correct 2 1 ann go => refused 4 WrongState withdrawn\n\
    restore 2 dan => restored sentence=2 state=assigned words=1\n\
    restore 2 dan => refused 21 NotPulled\n\
    pull 9 dan => refused 3 NoSuchSentence\n\
    pull 2 dan => pulled sentence=2 words=1\n\
    withdraw b1 cem => moved batch=1 state=withdrawn sentences=1 words=3\n\
    restore 2 dan => refused 4 WrongState withdrawn\n\
    reopen b1 ben => moved batch=1 state=open sentences=1 words=3\n\
    pull 1 dan => pulled sentence=1 words=3\n\
    assign b1 ben => moved batch=1 state=assigned sentences=0 words=0\n\
    batches => 1 no,name,state,worker,first,sentences,words,pulled,pulled_words;1,b1,assigned,ben,1,0,0,2,4;\n\
    \n\
    1 2 1000\n\
    import b1 ann dogs => imported batch=1 first=1 sentences=1 words=3\n\
    import b7 ann go => refused 17 Full\n\
    assign b1 ann => moved batch=1 state=assigned sentences=1 words=3\n\
    submit b1 ann => refused 17 Full\n\
    import b1 ann dogs => imported batch=1 first=1 sentences=1 words=3\n\
    \n\
    1000 1 1000\n\
    import b1 ann dogs => imported batch=1 first=1 sentences=1 words=3\n\
    pull 1 ann => refused 17 Full\n\
    import b7 ann go => refused 17 Full\n\
    \n\
    1 1000 1000\n\
    import b1 ann dogs+go => refused 17 Full\n\
    import b1 ann go => imported batch=1 first=1 sentences=1 words=1\n\
    import b2 ann dogs => refused 17 Full\n";

/// What searches find in released text, and in no other.
pub(crate) const SEARCHES: &str = "\
    1000 1000 15\n\
    import b6 ann book => imported batch=1 first=1 sentences=1 words=9\n\
    import b7 ann go => imported batch=2 first=2 sentences=1 words=1\n\
    batches => 2 no,name,state,worker,first,sentences,words,pulled,pulled_words;1,b6,open,,1,1,9,0,0;2,b7,open,,2,1,1,0,0;\n\
    search longest 5 []* => 0 hits 0;\n\
    assign b6 ann => moved batch=1 state=assigned sentences=1 words=9\n\
    search longest 5 []* => 0 hits 0;\n\
    submit b6 ann => moved batch=1 state=submitted sentences=1 words=9\n\
    search longest 5 []* => 0 hits 0;\n\
    count longest upos []* => 0 key,count;\n\
    number longest of []* => 0\n\
    adjudicate b6 ben => moved batch=1 state=adjudicated sentences=1 words=9\n\
    search longest 5 []* => 0 hits 0;\n\
    release b6 cem => moved batch=1 state=released sentences=1 words=9\n\
    search shortest 2 phrases => 3 s6/3/3/the old/book/on the;s6/6/6/on the/table/in the;s6/9/9/in the/room/;hits 3;\n\
    search longest 2 phrases => 1 s6/1/9//the old book on the table in the room/;hits 1;\n\
    number every of phrases => 15\n\
    number shortest of phrases => 3\n\
    number longest of phrases => 1\n\
    count every upos phrases => 15 key,count;NOUN,3;DET NOUN,2;NOUN ADP DET NOUN,2;ADJ NOUN,1;ADJ NOUN ADP DET NOUN,1;ADJ NOUN ADP DET NOUN ADP DET NOUN,1;\
    DET ADJ NOUN,1;DET ADJ NOUN ADP DET NOUN,1;DET ADJ NOUN ADP DET NOUN ADP DET NOUN,1;DET NOUN ADP DET NOUN,1;NOUN ADP DET NOUN ADP DET NOUN,1;\n\
    cut every 34 phrases => the writer failed s6/1/3//the old book/on the;s6/1/6\n\
    \n\
    1000 1000 14\n\
    import b6 ann book => imported batch=1 first=1 sentences=1 words=9\n\
    assign b6 ann => moved batch=1 state=assigned sentences=1 words=9\n\
    number every of phrases => 0\n\
    submit b6 ann => moved batch=1 state=submitted sentences=1 words=9\n\
    adjudicate b6 ben => moved batch=1 state=adjudicated sentences=1 words=9\n\
    release b6 cem => moved batch=1 state=released sentences=1 words=9\n\
    number every of phrases => refused 22 TooManyHits\n\
    number shortest of phrases => 3\n\
    search shortest 0 phrases => 3 s6/3/3//book/;s6/6/6//table/;s6/9/9//room/;hits 3;\n\
    \n\
    1000 1000 1\n\
    publish b7 go => moved batch=1 state=released sentences=1 words=1\n\
    search longest 0 []* => 1 s7/1/1//Go/;hits 1;\n\
    search longest 0 [upos=\"X\"]* => 0 hits 0;\n\
    search longest 0 [word=\"go\"%c & !feats contains \"X\"] => 1 s7/1/1//Go/;hits 1;\n\
    search longest 0 \"g.\"%l => 0 hits 0;\n\
    number every of []* => 1\n\
    withdraw b7 cem => moved batch=1 state=withdrawn sentences=1 words=1\n\
    search longest 0 []* => 0 hits 0;\n\
    count longest upos []* => 0 key,count;\n\
    number every of []* => 0\n\
    \n\
    1000 1000 1000\n\
    publish b8 letters => moved batch=1 state=released sentences=1 words=5\n\
    count shortest lemma [] => 5 key,count;a,2;b,2;\"c,\"\"d\"\"\",1;\n\
    number shortest of [] => 5\n\
    \n\
    1000 1000 1000\n\
    import b4 ann cannot => imported batch=1 first=1 sentences=1 words=3\n\
    assign b4 ann => moved batch=1 state=assigned sentences=1 words=3\n\
    correct 1 1 ann can_not => corrected sentence=1 rev=2 words=4\n\
    submit b4 ann => moved batch=1 state=submitted sentences=1 words=4\n\
    adjudicate b4 ben => moved batch=1 state=adjudicated sentences=1 words=4\n\
    release b4 cem => moved batch=1 state=released sentences=1 words=4\n\
    search longest 1 \"cannot|can|not\" => 2 s4/2/2/I/can/not;s4/3/3/can/not/.;hits 2;\n\
    count longest upos \"cannot|can|not\" => 2 key,count;AUX,1;PART,1;\n\
    number longest of \"cannot\" => 0\n\
    \n\
    1000 1000 1000\n\
    publish b1 dogs+go => moved batch=1 state=released sentences=2 words=4\n\
    search longest 0 []* => 2 s1/1/3//Dogs bark ./;s7/1/1//Go/;hits 2;\n\
    pull 1 dan => pulled sentence=1 words=3\n\
    search longest 0 []* => 1 s7/1/1//Go/;hits 1;\n\
    count longest upos []* => 1 key,count;VERB,1;\n\
    number longest of []* => 1\n\
    restore 1 dan => restored sentence=1 state=released words=3\n\
    count longest upos []* => 2 key,count;NOUN VERB PUNCT,1;VERB,1;\n\
    number longest of []* => 2\n\
    \n\
    1000 1000 500500\n\
    publish b9 thousand => moved batch=1 state=released sentences=1 words=1000\n\
    number every of []* => 500500\n\
    number longest of []* => 1\n\
    cut every 15 []* => the writer failed s9/1/1//w/w w;s\n\
    \n\
    1000 1000 500499\n\
    publish b9 thousand => moved batch=1 state=released sentences=1 words=1000\n\
    number every of []* => refused 22 TooManyHits\n";

/// The texts that replace `BODY`: bodies that a correction of `dogs` refuses, one for each reason, two for several
/// reasons, and one that only a full desk refuses.
pub(crate) const BODIES: &str = "\
    go:0:x dogs:NOUN:NN+go:0:x dogs:NOUN:NN dogs+dogs nothing dogs+go go dogs:.:! dogs dogs:dog:cat";

/// Commands that are refused for two reasons or more, on desks without room for another move.
pub(crate) const REFUSALS: &str = "\
    1 1 1000\n\
    import b1 ann dogs => imported batch=1 first=1 sentences=1 words=3\n\
    import b1 a/n BODY => refused 1 BadName\n\
    import b2 a/n BODY => refused 1 BadName\n\
    import b/1 ann BODY => refused 1 BadName\n\
    import b1 ann dogs => imported batch=1 first=1 sentences=1 words=3\n\
    import b2 ann dogs:NOUN:NN+go:0:x => refused 8 Read 9 7\n\
    import b1 ann go:0:x => refused 8 Read 3 7\n\
    import b2 ann dogs+go:0:x => refused 8 Read 9 7\n\
    import b2 ann go:0:x => refused 8 Read 3 7\n\
    import b1 ann go:VERB:VB => refused 9 Rule 1 4 1\n\
    import b2 ann dogs:NOUN:NN => refused 9 Rule 1 4 1\n\
    import b2 ann go:VERB:VB => refused 9 Rule 1 4 1\n\
    import b1 ann nothing => refused 10 Empty\n\
    import b2 ann nothing => refused 10 Empty\n\
    import b1 ann dogs:dog:cat => refused 15 NameTaken\n\
    import b1 ann go => refused 15 NameTaken\n\
    import b2 ann dogs => refused 16 SentIdTaken 1\n\
    import b2 ann go+dogs => refused 16 SentIdTaken 2\n\
    import b2 ann go => refused 17 Full\n\
    correct 9 9 a/n BODY => refused 1 BadName\n\
    correct 1 9 a/n BODY => refused 1 BadName\n\
    correct 9 9 ann BODY => refused 3 NoSuchSentence\n\
    correct 1 9 ann BODY => refused 4 WrongState open\n\
    revision 9 9 => refused 3 NoSuchSentence\n\
    pull 9 a/n => refused 1 BadName\n\
    pull 1 a/n => refused 1 BadName\n\
    pull 9 ann => refused 3 NoSuchSentence\n\
    pull 1 ann => refused 17 Full\n\
    restore 9 a/n => refused 1 BadName\n\
    restore 1 a/n => refused 1 BadName\n\
    restore 9 ann => refused 3 NoSuchSentence\n\
    restore 1 ann => refused 21 NotPulled\n\
    standing => desk open,1,3 1,import,1,0,none,open,1,0,3,ann\n\
    \n\
    1 2 1000\n\
    import b1 ann dogs => imported batch=1 first=1 sentences=1 words=3\n\
    assign b1 ann => moved batch=1 state=assigned sentences=1 words=3\n\
    submit b9 a/n => refused 1 BadName\n\
    submit b/9 ann => refused 1 BadName\n\
    reopen b1 a/n => refused 1 BadName\n\
    submit b1 a/n => refused 1 BadName\n\
    withdraw b1 a/n => refused 1 BadName\n\
    submit b9 ann => refused 2 NoSuchBatch\n\
    adjudicate b1 ann => refused 4 WrongState assigned\n\
    reopen b1 ann => refused 4 WrongState assigned\n\
    submit b1 ben => refused 5 NotYours\n\
    submit b1 ann => refused 17 Full\n\
    correct 1 9 a/n BODY => refused 1 BadName\n\
    correct 9 9 ann BODY => refused 3 NoSuchSentence\n\
    correct 1 9 ben BODY => refused 5 NotYours\n\
    correct 1 9 ann BODY => refused 7 Stale 1\n\
    correct 1 1 ann dogs:NOUN:NN+go:0:x => refused 8 Read 9 7\n\
    correct 1 1 ann dogs+go:0:x => refused 8 Read 9 7\n\
    correct 1 1 ann go:0:x => refused 8 Read 3 7\n\
    correct 1 1 ann dogs:Dogs:D\tgs => refused 8 Read 3 4\n\
    correct 1 1 ann dogs+dogs => refused 9 Rule 2 12 0\n\
    correct 1 1 ann go:VERB:VB => refused 9 Rule 1 4 1\n\
    correct 1 1 ann dogs:bark.:barks. => refused 9 Rule 1 11 0\n\
    correct 1 1 ann dogs:NOUN:NN => refused 9 Rule 1 4 1\n\
    correct 1 1 ann nothing => refused 10 Empty\n\
    correct 1 1 ann go+cannot => refused 11 NotOne\n\
    correct 1 1 ann dogs:.:!+go => refused 11 NotOne\n\
    correct 1 1 ann dogs+go => refused 11 NotOne\n\
    correct 1 1 ann go => refused 12 SentIdChanged\n\
    correct 1 1 ann dogs:s1:s2 => refused 12 SentIdChanged\n\
    correct 1 1 ann dogs:.:! => refused 13 TextChanged\n\
    correct 1 1 ann dogs => refused 14 NothingChanged\n\
    correct 1 1 ann dogs:dog:cat => refused 17 Full\n\
    standing => desk assigned,1,3 1,import,1,0,none,open,1,0,3,ann 2,assign,1,0,open,assigned,1,3,3,ann\n\
    \n\
    1 3 1000\n\
    import b1 ann dogs => imported batch=1 first=1 sentences=1 words=3\n\
    assign b1 ann => moved batch=1 state=assigned sentences=1 words=3\n\
    submit b1 ann => moved batch=1 state=submitted sentences=1 words=3\n\
    submit b1 ben => refused 4 WrongState submitted\n\
    send-back b1 ann => refused 6 OwnWork\n\
    adjudicate b1 ann => refused 6 OwnWork\n\
    adjudicate b1 ben => refused 17 Full\n\
    correct 1 9 ann BODY => refused 6 OwnWork\n\
    correct 1 9 ben BODY => refused 7 Stale 1\n\
    correct 1 1 ben dogs:dog:cat => refused 17 Full\n\
    \n\
    1 4 1000\n\
    import b4 ann cannot => imported batch=1 first=1 sentences=1 words=3\n\
    assign b4 ann => moved batch=1 state=assigned sentences=1 words=3\n\
    correct 1 1 ann can_not => corrected sentence=1 rev=2 words=4\n\
    submit b4 ann => moved batch=1 state=submitted sentences=1 words=4\n\
    correct 1 1 ann can_not => corrected sentence=1 rev=2 words=4\n\
    correct 1 1 a/n can_not => refused 1 BadName\n\
    correct 1 1 ben can_not => refused 7 Stale 2\n\
    correct 1 2 ann can_not => refused 6 OwnWork\n\
    import b4 ben cannot => imported batch=1 first=1 sentences=1 words=3\n\
    import b4 ann can_not => refused 15 NameTaken\n\
    \n\
    1 4 1000\n\
    import b4 ann cannot => imported batch=1 first=1 sentences=1 words=3\n\
    assign b4 ann => moved batch=1 state=assigned sentences=1 words=3\n\
    correct 1 1 ann can_not => corrected sentence=1 rev=2 words=4\n\
    pull 1 dan => pulled sentence=1 words=4\n\
    correct 1 1 ann can_not => corrected sentence=1 rev=2 words=4\n\
    correct 1 9 ben BODY => refused 4 WrongState withdrawn\n\
    pull 1 a/n => refused 1 BadName\n\
    pull 1 dan => refused 20 Pulled\n\
    restore 1 a/n => refused 1 BadName\n\
    restore 1 dan => refused 17 Full\n\
    \n\
    1 3 1000\n\
    import b1 ann dogs => imported batch=1 first=1 sentences=1 words=3\n\
    pull 1 dan => pulled sentence=1 words=3\n\
    withdraw b1 cem => moved batch=1 state=withdrawn sentences=0 words=0\n\
    pull 1 a/n => refused 1 BadName\n\
    pull 1 dan => refused 4 WrongState withdrawn\n\
    restore 1 a/n => refused 1 BadName\n\
    restore 1 dan => refused 4 WrongState withdrawn\n\
    \n\
    2 2 1000\n\
    import b1 ann dogs+go => imported batch=1 first=1 sentences=2 words=4\n\
    withdraw b1 cem => moved batch=1 state=withdrawn sentences=2 words=4\n\
    pull 1 dan => refused 4 WrongState withdrawn\n\
    restore 1 dan => refused 4 WrongState withdrawn\n";
