//! Worked documents and pages. No program calls these functions: the contract of each is the law.
ghost use Rattle.sk_document.specs.DocumentLaws.{DocumentsAreValues};
ghost use Rattle.sk_document.specs.WorkedDocuments.{ArchesDocumentWorks, CallsDocumentWorks, ComparisonDocumentWorks, LintDocumentWorks, WhenDocumentWorks};
ghost use Rattle.sk_document.specs.PageLaws.{ShownTextsArePlain};
ghost use Rattle.sk_document.specs.WorkedPages.{ActionsWork, ChangesWork, GroupsWork, RowsWork, TextsWork};
ghost use Rattle.sk_document.specs.WorkedReplays.{ReplayDocumentWorks};
ghost use Rattle.sk_document.specs.WorkedValues.{CallsWork, NumbersWork, TermsWork, VerdictsWork};
ghost use Rattle.sk_document.specs.WorkedWhys.{WhyDocumentWorks};

/// What is written of verdicts, numbers, calls and terms, worked out by hand.
pub fn worked_values()
    ensures verdicts { VerdictsWork }
    ensures numbers { NumbersWork }
    ensures calls { CallsWork }
    ensures terms { TermsWork }
{}

/// A small document of each word, worked out by hand.
pub fn worked_documents()
    ensures calls { CallsDocumentWorks }
    ensures when { WhenDocumentWorks }
    ensures comparison { ComparisonDocumentWorks }
    ensures lint { LintDocumentWorks }
    ensures arches { ArchesDocumentWorks }
{}

/// The document of a small replay, worked out by hand.
#[tactic(auto, using(crate::proofs::WorkedReplays::replay_works))]
pub fn worked_replay()
    ensures law { ReplayDocumentWorks }
{}

/// The document of a short path, worked out by hand.
#[tactic(auto, using(crate::proofs::WorkedWhys::why_works))]
pub fn worked_why()
    ensures law { WhyDocumentWorks }
{}

/// Each document is one value of JSON.
pub fn documents_are_values()
    ensures law { DocumentsAreValues }
{}

/// Parts of pages, worked out by hand.
pub fn worked_pages()
    ensures texts { TextsWork }
    ensures actions { ActionsWork }
    ensures groups { GroupsWork }
    ensures rows { RowsWork }
    ensures changes { ChangesWork }
{}

/// Nothing that a file says in a page is markup.
#[tactic(auto, using(crate::proofs::PlainTexts::plain_text))]
pub fn shown_texts_are_plain()
    ensures law { ShownTextsArePlain }
{}
