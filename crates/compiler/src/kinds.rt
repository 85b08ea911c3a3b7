// The kinds of symbols and of tree nodes that the walk looks at, by the numbers that tree's `kinds` give them: a tree stands in lent scratch as
// numbers, which are read as sizes and places are.
use tree::kinds;

pub(crate) const GLOBAL: usize = kinds::GLOBAL as usize;

pub(crate) const LET: usize = kinds::LET as usize;

pub(crate) const VEC: usize = kinds::VEC as usize;

pub(crate) const VALOF: usize = kinds::VALOF as usize;

pub(crate) const RESULTIS: usize = kinds::RESULTIS as usize;

pub(crate) const NOT: usize = kinds::NOT as usize;

pub(crate) const REM: usize = kinds::REM as usize;

pub(crate) const TEST: usize = kinds::TEST as usize;

pub(crate) const IF: usize = kinds::IF as usize;

pub(crate) const UNLESS: usize = kinds::UNLESS as usize;

pub(crate) const WHILE: usize = kinds::WHILE as usize;

pub(crate) const UNTIL: usize = kinds::UNTIL as usize;

pub(crate) const REPEATWHILE: usize = kinds::REPEATWHILE as usize;

pub(crate) const FOR: usize = kinds::FOR as usize;

pub(crate) const SWITCHON: usize = kinds::SWITCHON as usize;

pub(crate) const CASE: usize = kinds::CASE as usize;

pub(crate) const DEFAULT: usize = kinds::DEFAULT as usize;

pub(crate) const ENDCASE: usize = kinds::ENDCASE as usize;

pub(crate) const BREAK: usize = kinds::BREAK as usize;

pub(crate) const LOOP: usize = kinds::LOOP as usize;

pub(crate) const RETURN: usize = kinds::RETURN as usize;

pub(crate) const PLUS: usize = kinds::PLUS as usize;

pub(crate) const MINUS: usize = kinds::MINUS as usize;

pub(crate) const STAR: usize = kinds::STAR as usize;

pub(crate) const SLASH: usize = kinds::SLASH as usize;

pub(crate) const EQUAL: usize = kinds::EQUAL as usize;

pub(crate) const UNEQUAL: usize = kinds::UNEQUAL as usize;

pub(crate) const LESS: usize = kinds::LESS as usize;

pub(crate) const ATMOST: usize = kinds::ATMOST as usize;

pub(crate) const MORE: usize = kinds::MORE as usize;

pub(crate) const ATLEAST: usize = kinds::ATLEAST as usize;

pub(crate) const LEFT: usize = kinds::LEFT as usize;

pub(crate) const RIGHT: usize = kinds::RIGHT as usize;

pub(crate) const AMPERSAND: usize = kinds::AMPERSAND as usize;

pub(crate) const BAR: usize = kinds::BAR as usize;

pub(crate) const PLING: usize = kinds::PLING as usize;

pub(crate) const AT: usize = kinds::AT as usize;

pub(crate) const OPEN: usize = kinds::OPEN as usize;

pub(crate) const ASSIGN: usize = kinds::ASSIGN as usize;

pub(crate) const BEGIN: usize = kinds::BEGIN as usize;

pub(crate) const NAME: usize = kinds::NAME as usize;

pub(crate) const NUMBER: usize = kinds::NUMBER as usize;

pub(crate) const STRING: usize = kinds::STRING as usize;

pub(crate) const MONADIC: usize = kinds::MONADIC as usize;

pub(crate) const SUFFIXED: usize = kinds::SUFFIXED as usize;

pub(crate) const CALLED: usize = kinds::CALLED as usize;

pub(crate) const DYADIC: usize = kinds::DYADIC as usize;

pub(crate) const LABELLED: usize = kinds::LABELLED as usize;

pub(crate) const REPEATED: usize = kinds::REPEATED as usize;
