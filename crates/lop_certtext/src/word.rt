// The first words of lines.
ghost use Rattle.std.specs.Prelude.{◌≡◌};
ghost use Rattle.lop_certtext.specs.Line.{word_text, first_word, cert_words};

/// The first word of a certificate's line.
#[derive(Clone, Copy, Debug, PartialEq, Eq)]
pub enum CertWord {
    Version,
    Objects,
    OrderLine,
    Value,
    Bound,
    Cuts,
    Dicycle,
    Fence,
    Ladder,
    RecordsLine,
    RecordLine,
    SplitLine,
    Leaf,
    End,
}

impl CertWord {
    // Its bytes.
    pub(crate) fn text(self) -> &'static [u8]
        ensures { result.now ≡ word_text self }
    {
        match self {
            CertWord::Version => b"lopcert",
            CertWord::Objects => b"objects",
            CertWord::OrderLine => b"order",
            CertWord::Value => b"value",
            CertWord::Bound => b"bound",
            CertWord::Cuts => b"cuts",
            CertWord::Dicycle => b"dicycle",
            CertWord::Fence => b"fence",
            CertWord::Ladder => b"ladder",
            CertWord::RecordsLine => b"records",
            CertWord::RecordLine => b"record",
            CertWord::SplitLine => b"split",
            CertWord::Leaf => b"leaf",
            CertWord::End => b"end",
        }
    }
}

// All first words.
const WORDS: [CertWord; 14] = [
    CertWord::Version,
    CertWord::Objects,
    CertWord::OrderLine,
    CertWord::Value,
    CertWord::Bound,
    CertWord::Cuts,
    CertWord::Dicycle,
    CertWord::Fence,
    CertWord::Ladder,
    CertWord::RecordsLine,
    CertWord::RecordLine,
    CertWord::SplitLine,
    CertWord::Leaf,
    CertWord::End,
];

// The first word that the bytes are.
pub(crate) fn first_word(bytes: &[u8]) -> Option<CertWord>
    ensures { result ≡ first_word cert_words bytes.now }
{
    for word in WORDS {
        if word.text() == bytes {
            return Some(word);
        }
    }
    None
}
