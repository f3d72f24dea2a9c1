//! What the words of choices stand for.

ghost use Rattle.std.specs.Prelude.{◌≡◌, ◌↔◌, codes};

/// The limits with which a text is read.
#[derive(Clone, Copy)]
pub enum TextLimits {
    /// Those of what is served.
    Served,
    /// Much wider ones.
    Wide,
}

impl TextLimits {
    /// The limits of a word of `LIMITS`.
    pub fn of(word: &str) -> TextLimits
        ensures { (result ≡ TextLimits.Served) ↔ (word.now ≡ codes "served") }
    {
        match word {
            "served" => TextLimits::Served,
            _ => TextLimits::Wide,
        }
    }
}

/// How it is told how many interactions were made, and how fast.
#[derive(Clone, Copy)]
pub enum FiguresFormat {
    /// As lines.
    Lines,
    /// As an object of JSON on a line.
    Objects,
}

impl FiguresFormat {
    /// The format of a word of `FIGURES`.
    pub fn of(word: &str) -> FiguresFormat
        ensures { (result ≡ FiguresFormat.Objects) ↔ (word.now ≡ codes "json") }
    {
        match word {
            "json" => FiguresFormat::Objects,
            _ => FiguresFormat::Lines,
        }
    }
}

/// How a trace is told.
#[derive(Clone, Copy)]
pub enum TraceFormat {
    /// As a table with tabs.
    Tsv,
    /// As a picture.
    Svg,
    /// As objects of JSON, one a line.
    Json,
}

impl TraceFormat {
    /// The format of a word of `TABLE`.
    pub fn of(word: &str) -> TraceFormat
        ensures svg { (result ≡ TraceFormat.Svg) ↔ (word.now ≡ codes "svg") }
        ensures json { (result ≡ TraceFormat.Json) ↔ (word.now ≡ codes "json") }
    {
        match word {
            "svg" => TraceFormat::Svg,
            "json" => TraceFormat::Json,
            _ => TraceFormat::Tsv,
        }
    }
}

/// How it is told what is found.
#[derive(Clone, Copy)]
pub enum ReportFormat {
    /// As lines.
    Text,
    /// As objects of JSON, one a line.
    Json,
}

impl ReportFormat {
    /// The format of a word of `REPORT`.
    pub fn of(word: &str) -> ReportFormat
        ensures { (result ≡ ReportFormat.Json) ↔ (word.now ≡ codes "json") }
    {
        match word {
            "json" => ReportFormat::Json,
            _ => ReportFormat::Text,
        }
    }
}
