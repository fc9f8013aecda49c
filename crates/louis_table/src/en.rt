//! The table that is supplied with the crate.

/// Uncontracted English: its letters, digits and marks, its signs, and the characters of its
/// numeric mode, in 61 lines.
pub const EN: &str = "\
# braildesk: uncontracted English\n\
space \\s 0\n\
uplow Aa 1\n\
uplow Bb 12\n\
uplow Cc 14\n\
uplow Dd 145\n\
uplow Ee 15\n\
uplow Ff 124\n\
uplow Gg 1245\n\
uplow Hh 125\n\
uplow Ii 24\n\
uplow Jj 245\n\
uplow Kk 13\n\
uplow Ll 123\n\
uplow Mm 134\n\
uplow Nn 1345\n\
uplow Oo 135\n\
uplow Pp 1234\n\
uplow Qq 12345\n\
uplow Rr 1235\n\
uplow Ss 234\n\
uplow Tt 2345\n\
uplow Uu 136\n\
uplow Vv 1236\n\
uplow Ww 2456\n\
uplow Xx 1346\n\
uplow Yy 13456\n\
uplow Zz 1356\n\
digit 1 1\n\
digit 2 12\n\
digit 3 14\n\
digit 4 145\n\
digit 5 15\n\
digit 6 124\n\
digit 7 1245\n\
digit 8 125\n\
digit 9 24\n\
digit 0 245\n\
punctuation . 256\n\
punctuation , 2\n\
punctuation ; 23\n\
punctuation : 25\n\
punctuation ? 236\n\
punctuation ! 235\n\
punctuation ' 3\n\
punctuation \\x2019 3\n\
punctuation - 36\n\
punctuation ( 5-126\n\
punctuation ) 5-345\n\
punctuation / 456-34\n\
punctuation \\x201C 236\n\
punctuation \\x201D 356\n\
punctuation \" 6-2356\n\
punctuation \\x2013 6-36\n\
punctuation \\x2014 6-36\n\
numsign 3456\n\
capsletter 6\n\
begcapsword 6-6\n\
numericmodechars .,\n\
nocontractsign 56\n\
numericnocontchars abcdefghij\n";
