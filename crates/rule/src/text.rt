// The text of a rule.
ghost use Rattle.rule.specs.Mark.{Marked};

// The rows of a rule, behind which lie the marks of its objects, and the bytes of its names and strings.
#[derive(Clone, Copy)]
pub struct RuleText<'a> {
    pub table: &'a [u8],
    pub strings: &'a [u8],
    pub ghost marked: { Marked table.now strings.now },
}
