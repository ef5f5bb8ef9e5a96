//! Laws of files and faults. Each function states a fact about the definitions, and runs nothing.

ghost use Rattle.std.specs.Prelude.{◌≡◌, ◌↔◌, ◌<◌, ◌+◌, ℕ, Bool, List, [], ◌∷◌, ◌++◌};
ghost use Rattle.std.specs.Prelude.{length, false};
ghost use Rattle.tb_conllu.specs.Fault.{IsFaultAfter, IsReadFault};
ghost use Rattle.tb_conllu.specs.Left.{Left, IsNext, IsReadTo};
ghost use Rattle.tb_conllu.specs.declared.fault.ReadFault.{ReadFault};
ghost use Rattle.tb_conllu.specs.declared.faulty.FaultyLine.{FaultyLine};
ghost use Rattle.tb_conllu.specs.Begun.{BegunText, IsSound, lines_so_far};
ghost use Rattle.tb_conllu.specs.FaultyLines.{AreFaultyLines};
ghost use Rattle.tb_conllu.specs.Lines.{line_code, came_through};
ghost use Rattle.tb_conllu.specs.NineCodes.{HasLeastCode, HasNoCode};
ghost use Rattle.tb_conllu.specs.Shape.{AllShaped};
ghost use Rattle.tb_conllu.specs.Text.{BlockText, text_of, lines_of};
ghost use Rattle.tb_conllu.specs.Reported.{AreLines, IsDead, IsFile, IsNoFile, IsReported};

/// The code of a line is the least of the nine codes that it has; 0 where it has none.
pub fn a_line_has_its_least_code()
    ensures none { (came : Bool) (line : List ℕ) → line_code came line ≡ 0 ↔ HasNoCode came line }
    ensures least { (came : Bool) (line : List ℕ) (code : ℕ) → 0 < code
        → line_code came line ≡ code ↔ HasLeastCode came line code }
{}

/// No file begins with a line at fault and the lines before it.
pub fn faulty_line_is_dead()
    ensures { (before : List (List ℕ)) (reported : List ℕ) → AreLines (before ++ reported ∷ [])
        → 0 < line_code (came_through false before) reported → IsDead (before ++ reported ∷ []) }
{}

/// Lines that were read without a fault can still become a file.
pub fn read_lines_are_alive()
    ensures { (b : BegunText) → IsSound b → IsDead (lines_so_far b) → ⊥ }
{}

/// Two lists of shaped sentences with the same text are equal.
pub fn one_list_has_a_text()
    ensures { (f : List ℕ) (bs cs : List BlockText) → IsFile f bs → IsFile f cs → bs ≡ cs }
{}

/// A file that begins with the text of shaped sentences begins with these sentences.
pub fn a_file_begins_one_way()
    ensures { (bs cs : List BlockText) (rest : List ℕ) → AllShaped bs → AllShaped cs
        → text_of cs ≡ text_of bs ++ rest → (more : List BlockText) × (cs ≡ bs ++ more) × IsFile rest more }
{}

/// A fault of the bytes after whole sentences is the fault of the whole, with the lines of these sentences added.
pub fn fault_after_sentences()
    ensures { (bs : List BlockText) (f : List ℕ) (line code : ℕ) → AllShaped bs → IsReported f line code
        → IsReported (text_of bs ++ f) (length (lines_of bs) + line) code }
{}

/// Bytes with a fault are no file.
pub fn reported_bytes_are_no_file()
    ensures { (f : List ℕ) (line code : ℕ) → IsReported f line code → IsNoFile f }
{}

/// Any bytes have at most one fault.
pub fn one_fault_is_reported()
    ensures { (f : List ℕ) (line code other_line other_code : ℕ) → IsReported f line code
        → IsReported f other_line other_code → (line ≡ other_line) × (code ≡ other_code) }
{}

/// A file that is read one sentence after another: the next sentence, the end, the sentences that are left, and a
/// fault.
pub fn a_file_is_read_in_order()
    ensures begin { (f : List ℕ) → IsReadTo f [] (record { rest = f; line = 0 }) }
    ensures next { (f : List ℕ) (bs : List BlockText) (old new : Left) (b : BlockText) → IsReadTo f bs old
        → IsNext old new b → IsReadTo f (bs ++ b ∷ []) new }
    ensures end { (f : List ℕ) (bs : List BlockText) (left : Left) → IsReadTo f bs left → left.rest ≡ []
        → IsFile f bs }
    ensures rest { (f : List ℕ) (bs more : List BlockText) (left : Left) → IsReadTo f bs left
        → IsFile left.rest more → IsFile f (bs ++ more) }
    ensures fault { (f : List ℕ) (bs : List BlockText) (left : Left) (e : ReadFault) → IsReadTo f bs left
        → IsFaultAfter left.line left.rest e → IsReadFault f e }
{}

/// Bytes are a file exactly where no line is faulty. Else the first faulty line is the fault that is reported.
pub fn faulty_lines_are_reported()
    ensures none { (f : List ℕ) → AreFaultyLines f [] → (bs : List BlockText) × IsFile f bs }
    ensures file { (f : List ℕ) (bs : List BlockText) (faults : List FaultyLine) → IsFile f bs
        → AreFaultyLines f faults → faults ≡ [] }
    ensures first { (f : List ℕ) (x : FaultyLine) (more : List FaultyLine) → AreFaultyLines f (x ∷ more)
        → IsReported f x.line x.code }
{}
