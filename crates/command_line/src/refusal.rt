/// Why there is nothing to do.
#[derive(Drop)]
pub enum WordsRefusal {
    /// The words ask for help or for the version, and this is its text.
    Help(String),
    /// The words aren't understood, and this is why.
    Mistake(String),
    /// Memory ran out.
    Memory,
}
