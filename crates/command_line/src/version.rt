/// The version, which `counter --version` tells, and the commit; and in a line of its own, which it tells with
/// `--long`, the logic of the toolchain by which all was proved. A build writes commit and logic into the finished
/// program, in place of the two words and the zeros, which have as many octets: so what is proved doesn't change with
/// each commit. The package and its pages take the version from this line. It is one text, and goes by way of the
/// command: a short text of its own is copied by instructions that have a part of it in them, where a build doesn't
/// find it.
pub(crate) const VERSION: &str = "0.1.0 (unknown commit)\nlogic 0000000000000000";
