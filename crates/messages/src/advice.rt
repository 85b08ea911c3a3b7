// What to do about a refusal or stop, by its number: a few whole lines.
use crate::causes::{Lack, lack_of};
use machine::Stop;
use text::{Fault, UnknownNumber};

pub fn advice_of(source: &[u8], number: u16, place: usize) -> &'static str {
    match Fault::try_from(number) {
        Ok(Fault::SourceTooLong) => {
            "Make it shorter: leave out comments, blanks, and what the program does not use.\n"
        }
        Ok(Fault::NoSymbol) => {
            "Write words and names in capitals: small letters stand only in strings, characters and comments.\n\
             A ~ is followed by =, and a $ by ( or ). A comment begins with //.\n"
        }
        Ok(Fault::Number) => {
            "A decimal number is at most 32767. In octal a # comes first, then digits 0 to 7, up to #177777:\n\
             #100000 is -32768, and #177777 is -1.\n"
        }
        // No refusal is 4, which lies between those of symbols.
        Ok(Fault::Bracket) | Err(UnknownNumber(4)) => {
            "Each ( needs its ) and each $( its $), the inner pair closed before the outer one.\n"
        }
        Ok(Fault::Unexpected) => {
            "All before it was understood, so look just before the caret: a semicolon, a bracket, DO, or the OR\n\
             of a TEST may be missing. Outside of functions stand only GLOBAL, MANIFEST and LET; in a block every\n\
             LET comes before the commands. A line that begins with ! or - goes on with the line before, unless\n\
             that ends with a semicolon. A relation binds tighter than a shift: write (A >> 5) = 14.\n"
        }
        Ok(Fault::TooDeep) => "Make a function of the inner part, and call it here.\n",
        Ok(Fault::UnknownName) => {
            "Declare it before it is used, or spell it as it is declared. Reading and writing are globals too:\n\
             GLOBAL $( START:1; RDCH:13; WRCH:14 $)\n"
        }
        Ok(Fault::NameTwice) => {
            "Give one of the two another name. In one list, in one block, and outside of functions a name stands\n\
             once; only a function may repeat the name of a global before it. A global has one function.\n"
        }
        Ok(Fault::NoPlace) => {
            "Before := and after @ stands a variable, or a form with !, as V!3 or !P. A function, a manifest name,\n\
             a number and a call are values, and have no word to put another in.\n"
        }
        Ok(Fault::Constant) => {
            "A constant is a number, a character, TRUE, FALSE or a name of MANIFEST; a minus may come first.\n\
             A global's number is 0 to 399, that of VEC 0 to 4095, and that of BY is not 0.\n"
        }
        Ok(Fault::Case) => {
            "In one SWITCHON each value has one CASE, and there is one DEFAULT. They stand right before commands\n\
             of the list after INTO, not inside of one of these commands.\n"
        }
        Ok(Fault::NothingToLeave) => {
            "BREAK and LOOP stand in a loop, ENDCASE in a SWITCHON, RESULTIS in a VALOF, RETURN in a routine (BE).\n\
             BREAK, LOOP and ENDCASE do not reach out of a VALOF.\n"
        }
        Ok(Fault::NoStart) => {
            "Declare the global before the function:\n\
             GLOBAL $( START:1 $)\n\
             LET START() BE ...\n"
        }
        Ok(Fault::RoomTooShort) => "Make the source shorter.\n",
        Ok(Fault::TooHigh) => {
            "Make its vectors smaller, or share its locals out among several functions.\n"
        }
        Ok(Fault::Unreadable) => match lack_of(source, place) {
            Lack::Start => "Put $ before the first item, and a blank or a newline behind it.\n",
            Lack::End => "Put Z behind the last item.\n",
            Lack::Item => {
                "An item is a label, as 12: ; an instruction: one of L S A J T F K X, then I or not, then P, G or\n\
                 neither, then a number, 'c' or L12; D with a number, 'c' or L12; C\"TEXT\"; or G1L12. After each but a\n\
                 label comes a blank, a newline or a / comment; tabs and carriage returns are none of these. There is\n\
                 one $, at the start, and nothing but blanks, newlines and comments comes after Z.\n"
            }
        },
        Ok(Fault::LabelTwice) => {
            "Give one of the two another number, and correct the items that mean it.\n"
        }
        Ok(Fault::UnknownLabel) => {
            "Put the label, as 12:, before the item that L12 is to mean; or correct the number.\n"
        }
        Ok(Fault::OutOfRange) => {
            "Numbers are -32768 to 65535, labels 1 to 32767, globals 0 to 399.\n"
        }
        Ok(Fault::Memory) => {
            "The program begins at word 416, and memory ends at word 32767: make it shorter.\n"
        }
        Ok(Fault::TableTooShort) => "Use fewer labels.\n",
        Ok(Fault::Unclosed) => {
            "End it with the quote that it begins with. After an asterisk a quote does not close: *' and *\" are\n\
             characters, and the * itself is written **.\n"
        }
        Ok(Fault::Escape) => {
            "After * comes one of N S T B P C * ' \", or just three digits, 000 to 255: *N is a newline, *002 the\n\
             byte 2, and ** the * itself.\n"
        }
        Ok(Fault::QuotedByte) => {
            "Only the characters from blank to ~ stand for themselves. Write a tab as *T, and any other byte by its\n\
             number, as *176: an asterisk and three digits.\n"
        }
        Ok(Fault::QuotedLength) => {
            "A character stands alone, as 'A'; a string, as \"TEXT\", has 255 characters at most.\n"
        }
        Err(_) => "",
    }
}

pub fn stop_advice_of(stop: u16) -> &'static str {
    match Stop::try_from(stop) {
        Ok(Stop::MemoryLength) => "It is to have 512 to 32768 words.\n",
        Ok(Stop::Budget) => {
            "A larger BUDGET lets the program run on; if it was to be done by now, look for a loop without an end.\n"
        }
        Ok(Stop::Address) => {
            "Look for a pointer or an index that was never set or ran too far, for a call of something that is no\n\
             function, and for calls without an end, which use up the stack.\n"
        }
        Ok(Stop::ZeroDivisor) => {
            "See that the divisor is not 0 before / or REM (the acts X6 and X7).\n"
        }
        Ok(Stop::UnlistedAct) => {
            "The acts are X1 to X19, X22, X23, X27 and X28. Where no X was written at C, a jump, or a call of\n\
             something that is no function, led into data.\n"
        }
        Ok(Stop::Finished | Stop::OutputFull) | Err(_) => {
            "Is the disk full, or the program closed that reads the output?\n"
        }
    }
}
