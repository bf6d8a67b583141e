//! What is written as a certificate is read back, and `check` accepts it; and each one of a closed
//! table. The functions do nothing; their contracts are the laws. Nothing stands on this crate but
//! readers.
#![tactic(auto)]

ghost use Rattle.std.specs.Prelude.{◌≡◌, ◌≤◌, ◌⊎◌, ◌↔◌, ℕ, true, false, List, String, length};
ghost use Rattle.std.specs.Str.{IsUtf8};
ghost use Rattle.std.specs.declared.alloc.Global.{Global};
ghost use Rattle.ja_device.specs.Signatures.{AreSignatures};
ghost use Rattle.ja_graph.specs.WellFormed.{IsWellFormed};
ghost use Rattle.ja_graph.specs.declared.program.Program.{Program};
ghost use Rattle.ja_lex.specs.Spots.{max_bytes};
ghost use Rattle.ja_load.specs.Loading.{IsProgramOf};
ghost use Rattle.ja_prim.specs.declared.signature.Signature.{Signature};
ghost use Rattle.ja_rows.specs.declared.table.Warning.{Warning};
ghost use Rattle.ja_table.specs.Tables.{table_of};
ghost use Rattle.ja_cert_laws.specs.Accepted.{HasReport, IsLost, IsPassedOn, IsReported, asking};
ghost use Rattle.ja_cert_laws.specs.Back.{CanBeWritten, IsSolved, IsWantOfMemory, SaysSame};
ghost use Rattle.ja_cert_laws.specs.Back.{written};
ghost use Rattle.ja_cert_laws.specs.Complete.{HasClosed};
ghost use Rattle.ja_cert_read.specs.Certified.{IsCertificate, IsNoCertificate};
ghost use Rattle.ja_cert_read.specs.declared.certificate.CertFault.{CertFault};
ghost use Rattle.ja_cert_read.specs.declared.certificate.Certificate.{Certificate};
ghost use Rattle.ja_top.specs.Analyses.{IsAnalysed};
ghost use Rattle.ja_top.specs.Answers.{Asks, Call, IsAnswered, Written, request_of};
ghost use Rattle.ja_top.specs.Checks.{Checks};
ghost use Rattle.ja_top.specs.Complete.{IsComplete};
ghost use Rattle.ja_top.specs.Runs.{signatures_of};
ghost use Rattle.ja_top.specs.declared.status.Status.{Status};
ghost use Rattle.ja_words.specs.declared.command.Budget.{Budget};
ghost use Rattle.ja_words.specs.declared.command.Command.TheVariants.{Analyse, Check};

/// What is written of a program that is loaded from its text, a table of it and visits is their
/// certificate, in UTF-8, and what is solved can be written. Bytes are one certificate at most:
/// that of one program, of one table and of one list of visits. No fault but want of memory
/// explains a certificate as none. So `read` gives back what `write` was given, the same table and
/// not one that is like it, or memory was refused.
pub fn certificates_are_read_back()
    ensures written { (c : Certificate) → CanBeWritten c → IsCertificate (written c) c }
    ensures utf8 { (c : Certificate) → CanBeWritten c → IsUtf8 (written c) }
    ensures solved { (c : Certificate) → IsSolved c → CanBeWritten c }
    ensures one { (bytes : List ℕ) (c d : Certificate) → IsCertificate bytes c
        → IsCertificate bytes d → SaysSame c d }
    ensures not_refused { (bytes : List ℕ) (c : Certificate) (f : CertFault)
        → IsCertificate bytes c → IsWellFormed c.program → IsNoCertificate bytes f
        → IsWantOfMemory f }
    ensures back { (c d : Certificate) → CanBeWritten c → IsCertificate (written c) d
        → SaysSame c d }
    ensures explained { (c : Certificate) (f : CertFault) → CanBeWritten c
        → IsNoCertificate (written c) f → IsWantOfMemory f }
{}

/// What an analysis writes as a certificate, `check` accepts, up to its length. Of a certificate
/// of at most 16,777,216 bytes that is printed of a program, a table, visits and warnings it says
/// exactly what is printed of these without `--cert`: their report, with `built yes`, under the
/// same status. So a body that refuses such a certificate, says `built no` of it or warns
/// otherwise doesn't meet the contract of `check`; want of memory alone is free.
///
/// Of calls: where `tajs analyse --cert` wrote a certificate to an empty sink, a call of
/// `tajs check` that reads it answers as one of `tajs analyse` with the same budget, source and
/// devices does, with its status and its text; or the source, the sink or memory failed, or the
/// certificate is longer than a text may be.
pub fn certificates_are_accepted()
    ensures accepted { (bytes : List ℕ) (signatures : List Signature) (p : Program) (budget : Budget)
        (certificate : List ℕ) (ws : List Warning)
        (a : IsAnalysed (request_of true budget) p certificate ws) (status : Status)
        (text : List ℕ) → length bytes ≤ max_bytes → length certificate ≤ max_bytes
        → AreSignatures signatures → IsProgramOf bytes signatures p
        → (Checks certificate status text
        ↔ IsReported p (table_of a.table) a.visits ws status text) }
    ensures answered { (c d : Call) (w v : Written) (words : List (String Global)) (budget : Budget)
        (s r : Status) → AreSignatures (signatures_of c.devices)
        → Asks c.words (Analyse true budget) → Asks d.words Check
        → Asks words (Analyse false budget)
        → IsAnswered c w s → HasReport s → IsPassedOn w d → IsAnswered d v r
        → IsLost w r ⊎ ((r ≡ s) × IsAnswered (asking words c) v r) }
{}

/// A check of a certificate whose table is closed is complete, whoever wrote it: where neither the
/// source nor the sink fails, it answers with the report of the table, or for want of memory.
pub fn checks_are_complete()
    ensures { (c : Call) (w : Written) (status : Status) → HasClosed c w → IsAnswered c w status
        → IsComplete status }
{}
