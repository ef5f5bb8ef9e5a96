//! The files of `samples/`, each of two sentences.

pub(crate) const ARABIC: &str = "\
    # sent_id = ar-1\n\
    # text = كتب الولد رسالة.\n\
    1\tكتب\tكتب\tVERB\t_\tAspect=Perf|Gender=Masc|Number=Sing|Person=3\t0\troot\t_\tTranslit=kataba\n\
    2\tالولد\tولد\tNOUN\t_\tCase=Nom|Definite=Def\t1\tnsubj\t_\tTranslit=al-waladu\n\
    3\tرسالة\tرسالة\tNOUN\t_\tCase=Acc|Definite=Ind\t1\tobj\t_\tSpaceAfter=No|Translit=risalatan\n\
    4\t.\t.\tPUNCT\t_\t_\t1\tpunct\t_\t_\n\
    \n\
    # sent_id = ar-2\n\
    # text = وقرأ الكتاب.\n\
    1-2\tوقرأ\t_\t_\t_\t_\t_\t_\t_\t_\n\
    1\tو\tو\tCCONJ\t_\t_\t2\tcc\t_\t_\n\
    2\tقرأ\tقرأ\tVERB\t_\tAspect=Perf|Gender=Masc|Number=Sing|Person=3\t0\troot\t_\t_\n\
    3\tالكتاب\tكتاب\tNOUN\t_\tCase=Acc|Definite=Def\t2\tobj\t_\tSpaceAfter=No\n\
    4\t.\t.\tPUNCT\t_\t_\t2\tpunct\t_\t_\n\
    \n";

pub(crate) const CHINESE: &str = "\
    # sent_id = zh-1\n\
    # text = 我喜欢喝绿茶。\n\
    1\t我\t我\tPRON\t_\tPerson=1\t2\tnsubj\t_\tSpaceAfter=No\n\
    2\t喜欢\t喜欢\tVERB\t_\t_\t0\troot\t_\tSpaceAfter=No\n\
    3\t喝\t喝\tVERB\t_\t_\t2\txcomp\t_\tSpaceAfter=No\n\
    4\t绿茶\t绿茶\tNOUN\t_\t_\t3\tobj\t_\tSpaceAfter=No\n\
    5\t。\t。\tPUNCT\t_\t_\t2\tpunct\t_\tSpaceAfter=No\n\
    \n\
    # sent_id = zh-2\n\
    # text = 三本书在桌子上。\n\
    1\t三\t三\tNUM\t_\tNumType=Card\t2\tnummod\t_\tSpaceAfter=No\n\
    2\t本\t本\tNOUN\t_\tNounType=Clf\t3\tclf\t_\tSpaceAfter=No\n\
    3\t书\t书\tNOUN\t_\t_\t4\tnsubj\t_\tSpaceAfter=No\n\
    4\t在\t在\tVERB\t_\t_\t0\troot\t_\tSpaceAfter=No\n\
    5\t桌子\t桌子\tNOUN\t_\t_\t4\tobj\t_\tSpaceAfter=No\n\
    6\t上\t上\tADP\t_\t_\t5\tcase\t_\tSpaceAfter=No\n\
    7\t。\t。\tPUNCT\t_\t_\t4\tpunct\t_\tSpaceAfter=No\n\
    \n";

pub(crate) const ENGLISH: &str = "\
    # sent_id = en-1\n\
    # text = Small dogs don't bark.\n\
    1\tSmall\tsmall\tADJ\tJJ\tDegree=Pos\t2\tamod\t2:amod\t_\n\
    2\tdogs\tdog\tNOUN\tNNS\tNumber=Plur\t5\tnsubj\t5:nsubj\t_\n\
    3-4\tdon't\t_\t_\t_\t_\t_\t_\t_\t_\n\
    3\tdo\tdo\tAUX\tVBP\tMood=Ind|Number=Plur|Person=3|Tense=Pres|VerbForm=Fin\t5\taux\t5:aux\t_\n\
    4\tn't\tnot\tPART\tRB\tPolarity=Neg\t5\tadvmod\t5:advmod\t_\n\
    5\tbark\tbark\tVERB\tVB\tVerbForm=Inf\t0\troot\t0:root\tSpaceAfter=No\n\
    6\t.\t.\tPUNCT\t.\t_\t5\tpunct\t5:punct\t_\n\
    \n\
    # sent_id = en-2\n\
    # text = Anna reads books and Tom newspapers.\n\
    1\tAnna\tAnna\tPROPN\tNNP\tNumber=Sing\t2\tnsubj\t2:nsubj\t_\n\
    2\treads\tread\tVERB\tVBZ\tMood=Ind|Number=Sing|Person=3|Tense=Pres|VerbForm=Fin\t0\troot\t0:root\t_\n\
    3\tbooks\tbook\tNOUN\tNNS\tNumber=Plur\t2\tobj\t2:obj\t_\n\
    4\tand\tand\tCCONJ\tCC\t_\t5\tcc\t5.1:cc\t_\n\
    5\tTom\tTom\tPROPN\tNNP\tNumber=Sing\t2\tconj\t5.1:nsubj\t_\n\
    5.1\treads\tread\tVERB\tVBZ\tMood=Ind|Number=Sing|Person=3|Tense=Pres|VerbForm=Fin\t_\t_\t2:conj:and\tCopyOf=2\n\
    6\tnewspapers\tnewspaper\tNOUN\tNNS\tNumber=Plur\t5\torphan\t5.1:obj\tSpaceAfter=No\n\
    7\t.\t.\tPUNCT\t.\t_\t2\tpunct\t2:punct\t_\n\
    \n";

pub(crate) const HINDI: &str = "\
    # sent_id = hi-1\n\
    # text = राम ने मीठा फल खाया।\n\
    1\tराम\tराम\tPROPN\t_\tCase=Acc|Gender=Masc|Number=Sing\t5\tnsubj\t5:nsubj\t_\n\
    2\tने\tने\tADP\t_\tCase=Erg\t1\tcase\t1:case\t_\n\
    3\tमीठा\tमीठा\tADJ\t_\tCase=Nom|Gender=Masc|Number=Sing\t4\tamod\t4:amod\t_\n\
    4\tफल\tफल\tNOUN\t_\tCase=Nom|Gender=Masc|Number=Sing\t5\tobj\t5:obj\t_\n\
    5\tखाया\tखा\tVERB\t_\tAspect=Perf|Gender=Masc|Number=Sing|VerbForm=Part\t0\troot\t0:root\tSpaceAfter=No\n\
    6\t।\t।\tPUNCT\t_\t_\t5\tpunct\t5:punct\t_\n\
    \n\
    # sent_id = hi-2\n\
    # text = बच्चे पार्क में खेलते हैं।\n\
    1\tबच्चे\tबच्चा\tNOUN\t_\tCase=Nom|Gender=Masc|Number=Plur\t4\tnsubj\t4:nsubj\t_\n\
    2\tपार्क\tपार्क\tNOUN\t_\tCase=Acc|Gender=Masc|Number=Sing\t4\tobl\t4:obl:में\t_\n\
    3\tमें\tमें\tADP\t_\t_\t2\tcase\t2:case\t_\n\
    4\tखेलते\tखेल\tVERB\t_\tAspect=Imp|Gender=Masc|Number=Plur|VerbForm=Part\t0\troot\t0:root\t_\n\
    5\tहैं\tहै\tAUX\t_\tMood=Ind|Number=Plur|Person=3|Tense=Pres\t4\taux\t4:aux\tSpaceAfter=No\n\
    6\t।\t।\tPUNCT\t_\t_\t4\tpunct\t4:punct\t_\n\
    \n";

pub(crate) const RUSSIAN: &str = "\
    # sent_id = ru-1\n\
    # text = Кошка спит на старом стуле.\n\
    1\tКошка\tкошка\tNOUN\t_\tAnimacy=Anim|Case=Nom|Gender=Fem|Number=Sing\t2\tnsubj\t_\t_\n\
    2\tспит\tспать\tVERB\t_\tAspect=Imp|Mood=Ind|Number=Sing|Person=3|Tense=Pres|VerbForm=Fin\t0\troot\t_\t_\n\
    3\tна\tна\tADP\t_\t_\t5\tcase\t_\t_\n\
    4\tстаром\tстарый\tADJ\t_\tCase=Loc|Gender=Masc|Number=Sing\t5\tamod\t_\t_\n\
    5\tстуле\tстул\tNOUN\t_\tAnimacy=Inan|Case=Loc|Gender=Masc|Number=Sing\t2\tobl\t_\tSpaceAfter=No\n\
    6\t.\t.\tPUNCT\t_\t_\t2\tpunct\t_\t_\n\
    \n\
    # sent_id = ru-2\n\
    # text = Я читаю новую книгу.\n\
    1\tЯ\tя\tPRON\t_\tCase=Nom|Number=Sing|Person=1\t2\tnsubj\t_\t_\n\
    2\tчитаю\tчитать\tVERB\t_\tAspect=Imp|Mood=Ind|Number=Sing|Person=1|Tense=Pres|VerbForm=Fin\t0\troot\t_\t_\n\
    3\tновую\tновый\tADJ\t_\tCase=Acc|Gender=Fem|Number=Sing\t4\tamod\t_\t_\n\
    4\tкнигу\tкнига\tNOUN\t_\tAnimacy=Inan|Case=Acc|Gender=Fem|Number=Sing\t2\tobj\t_\tSpaceAfter=No\n\
    5\t.\t.\tPUNCT\t_\t_\t2\tpunct\t_\t_\n\
    \n";
