//! Requests and replies.
use crate::playing::{
    LARGE, Row, Tallied, all_right, all_right_again, is_bounded, is_large_deleted, is_tallied,
};
use memcache_service::Setup;

/// Storing and reading.
const STORED: &[Row] = &[
    (0, b"set a 5 0 3\r\nabc\r\n", b"STORED\r\n"),
    (0, b"get a\r\n", b"VALUE a 5 3\r\nabc\r\nEND\r\n"),
    (0, b"gets a\r\n", b"VALUE a 5 3 1\r\nabc\r\nEND\r\n"),
    (
        0,
        b"get  a   a\r\n",
        b"VALUE a 5 3\r\nabc\r\nVALUE a 5 3\r\nabc\r\nEND\r\n",
    ),
    (0, b"get a\n", b"VALUE a 5 3\r\nabc\r\nEND\r\n"),
    (0, b" get a b\r\n", b"VALUE a 5 3\r\nabc\r\nEND\r\n"),
    (
        0,
        b"set b 0 0 2\r\n\r\n\r\nget b\r\n",
        b"STORED\r\nVALUE b 0 2\r\n\r\n\r\nEND\r\n",
    ),
    (
        0,
        b"set a 5 0 3 noreply\r\nxyz\r\nget a\r\n",
        b"VALUE a 5 3\r\nxyz\r\nEND\r\n",
    ),
    (
        0,
        b"set a 1 0 3\r\nabcde\r\n",
        b"CLIENT_ERROR bad data chunk\r\nERROR\r\n",
    ),
    (0, b"set a 1 0 3 noreply\r\nabcde\r\n", b"ERROR\r\n"),
    (0, b"get a\r\n", b"VALUE a 5 3\r\nxyz\r\nEND\r\n"),
    (0, b"add a 1 0 1\r\nx\r\n", b"NOT_STORED\r\n"),
    (0, b"add c 1 0 1\r\nx\r\n", b"STORED\r\n"),
    (0, b"append c 7 9 1\r\ny\r\n", b"STORED\r\n"),
    (0, b"prepend c 7 9 2\r\nzz\r\n", b"STORED\r\n"),
    (0, b"gets c\r\n", b"VALUE c 1 4 6\r\nzzxy\r\nEND\r\n"),
    (0, b"prepend d 7 9 1\r\ny\r\n", b"NOT_STORED\r\n"),
    (0, b"replace d 1 0 1\r\nz\r\n", b"NOT_STORED\r\n"),
    (0, b"cas c 1 0 1 5\r\nz\r\n", b"EXISTS\r\n"),
    (0, b"cas d 1 0 1 5\r\nz\r\n", b"NOT_FOUND\r\n"),
    (0, b"cas c 1 0 1 6\r\nz\r\n", b"STORED\r\n"),
    (0, b"get c\r\n", b"VALUE c 1 1\r\nz\r\nEND\r\n"),
    (0, b"delete c\r\n", b"DELETED\r\n"),
    (0, b"delete c\r\n", b"NOT_FOUND\r\n"),
    (
        0,
        b"delete c 5\r\n",
        b"CLIENT_ERROR bad command line format.  Usage: delete <key> [noreply]\r\n",
    ),
    (0, b"delete c 0 noreply\r\n", b""),
    (
        0,
        b"delete c 10 noreply\r\ndelete c noreply noreply\r\n",
        b"",
    ),
    (0, b"delete c 0 0 noreply\r\n", b"ERROR\r\n"),
    (0, b"flush_all\r\n", b"OK\r\n"),
    (0, b"get a b\r\n", b"END\r\n"),
    (
        0,
        b"set a 1 0 1\r\nx\r\nget a\r\n",
        b"STORED\r\nVALUE a 1 1\r\nx\r\nEND\r\n",
    ),
    (
        0,
        b"flush_all 10 noreply\r\nget a\r\n",
        b"VALUE a 1 1\r\nx\r\nEND\r\n",
    ),
    (9_999, b"get a\r\n", b"VALUE a 1 1\r\nx\r\nEND\r\n"),
    (
        10_000,
        b"get a\r\nadd a 1 0 1\r\ny\r\n",
        b"END\r\nSTORED\r\n",
    ),
    (10_000, b"get a\r\n", b"VALUE a 1 1\r\ny\r\nEND\r\n"),
];

/// Counting.
const COUNTED: &[Row] = &[
    (0, b"set n 3 0 2\r\n10\r\n", b"STORED\r\n"),
    (0, b"incr n 5\r\n", b"15\r\n"),
    (0, b"gets n\r\n", b"VALUE n 3 2 2\r\n15\r\nEND\r\n"),
    (0, b"decr n 6\r\n", b"9\r\n"),
    (0, b"decr n 100\r\n", b"0\r\n"),
    (
        0,
        b"incr n 18446744073709551615\r\n",
        b"18446744073709551615\r\n",
    ),
    (
        0,
        b"get n\r\n",
        b"VALUE n 3 20\r\n18446744073709551615\r\nEND\r\n",
    ),
    (0, b"incr n 1\r\n", b"0\r\n"),
    (
        0,
        b"incr n x\r\n",
        b"CLIENT_ERROR invalid numeric delta argument\r\n",
    ),
    (
        0,
        b"incr n -1\r\n",
        b"CLIENT_ERROR invalid numeric delta argument\r\n",
    ),
    (
        0,
        b"incr n 18446744073709551616\r\n",
        b"CLIENT_ERROR invalid numeric delta argument\r\n",
    ),
    (0, b"incr n\r\n", b"ERROR\r\n"),
    (0, b"incr q 1\r\n", b"NOT_FOUND\r\n"),
    (0, b"incr n 1 noreply\r\nincr n 1\r\n", b"2\r\n"),
    (
        0,
        b"set n 0 0 3\r\nabc\r\nincr n 1\r\n",
        b"STORED\r\nCLIENT_ERROR cannot increment or decrement non-numeric value\r\n",
    ),
    (
        0,
        b"set n 0 0 20\r\n18446744073709551616\r\nincr n 1\r\n",
        b"STORED\r\nCLIENT_ERROR cannot increment or decrement non-numeric value\r\n",
    ),
];

/// Expiries.
const EXPIRED: &[Row] = &[
    (0, b"set a 1 -1 3\r\nabc\r\nget a\r\n", b"STORED\r\nEND\r\n"),
    (
        0,
        b"set a 1 2 3\r\nabc\r\nget a\r\n",
        b"STORED\r\nVALUE a 1 3\r\nabc\r\nEND\r\n",
    ),
    (1_999, b"get a\r\n", b"VALUE a 1 3\r\nabc\r\nEND\r\n"),
    (2_000, b"get a\r\n", b"END\r\n"),
    (2_000, b"set a 1 1700000005 3\r\nabc\r\n", b"STORED\r\n"),
    (4_999, b"gats 0 a b\r\n", b"VALUE a 1 3 3\r\nabc\r\nEND\r\n"),
    (9_000, b"get a\r\n", b"VALUE a 1 3\r\nabc\r\nEND\r\n"),
    (
        9_000,
        b"touch a 1\r\ntouch b 1\r\n",
        b"TOUCHED\r\nNOT_FOUND\r\n",
    ),
    (
        9_999,
        b"gat -1 a\r\nget a\r\n",
        b"VALUE a 1 3\r\nabc\r\nEND\r\nEND\r\n",
    ),
    (
        9_999,
        b"touch n x\r\n",
        b"CLIENT_ERROR invalid exptime argument\r\n",
    ),
    (
        9_999,
        b"gat x n\r\n",
        b"CLIENT_ERROR invalid exptime argument\r\n",
    ),
    (
        9_999,
        b"flush_all x\r\n",
        b"CLIENT_ERROR invalid exptime argument\r\n",
    ),
];

/// Requests that cannot be read.
const MALFORMED: &[Row] = &[
    (
        0,
        b"GET a\r\nget\r\n\r\nget \r\nfoo\r\n",
        b"ERROR\r\nERROR\r\nERROR\r\nERROR\r\nERROR\r\n",
    ),
    (
        0,
        b"set a 5 0\r\nset a 5 0 3 noreply x\r\n",
        b"ERROR\r\nERROR\r\n",
    ),
    (
        0,
        b"set a x 0 3\r\nset a 1 x 3\r\nset a 1 0 -1\r\n",
        b"CLIENT_ERROR bad command line format\r\nCLIENT_ERROR bad command line format\r\nCLIENT_ERROR bad command line format\r\n",
    ),
    (
        0,
        b"set a 1 0 18446744073709551616\r\n",
        b"CLIENT_ERROR bad command line format\r\n",
    ),
    (
        0,
        b"cas a 1 0 1 x\r\ncas a 1 0 1\r\n",
        b"CLIENT_ERROR bad command line format\r\nERROR\r\n",
    ),
    (
        0,
        b"version\r\nverbosity 1\r\nverbosity\r\nverbosity 1 noreply\r\nverbosity noreply\r\n",
        b"VERSION 1.6.18\r\nOK\r\nERROR\r\n",
    ),
    (
        0,
        b"verbosity x\r\nverbosity x noreply\r\nverbosity 1 2\r\nverbosity 1 2 3\r\n",
        b"CLIENT_ERROR bad command line format\r\nOK\r\nERROR\r\n",
    ),
    (0, b"quit\r\nget a\r\n", b""),
    (0, b"get a\r\n", b""),
];

/// Meta commands, with leases.
const META: &[Row] = &[
    (0, b"mg a v\r\n", b"EN\r\n"),
    (0, b"mg a v N30\r\n", b"VA 0 W\r\n\r\n"),
    (0, b"mg a v t c N30\r\n", b"VA 0 t30 c1 Z\r\n\r\n"),
    (
        0,
        b"mg a k v t c f s O123 q\r\n",
        b"VA 0 ka t30 c1 f0 s0 O123 Z\r\n\r\n",
    ),
    (0, b"ms a 2\r\nab\r\n", b"HD\r\n"),
    (0, b"ms a 2 T100 F5 c k O1 q\r\nab\r\n", b""),
    (
        0,
        b"ms a 2 C1\r\nab\r\nms b 2 C1\r\nab\r\n",
        b"EX\r\nNF\r\n",
    ),
    (0, b"mg a v c t f\r\n", b"VA 2 c3 t100 f5\r\nab\r\n"),
    (
        0,
        b"mg a\r\nmg a q\r\nmg zz q\r\nmg zz k O1\r\nmn\r\n",
        b"HD\r\nHD\r\nEN kzz O1\r\nMN\r\n",
    ),
    (0, b"md a I T30\r\n", b"HD\r\n"),
    (0, b"mg a v c t\r\n", b"VA 2 c4 t30 X W\r\nab\r\n"),
    (0, b"mg a v c t\r\n", b"VA 2 c4 t30 Z X\r\nab\r\n"),
    (0, b"ms a 3 C1 I\r\nzzz\r\n", b"HD\r\n"),
    (0, b"mg a v c t\r\n", b"VA 3 c5 t30 Z X\r\nzzz\r\n"),
    (0, b"ms a 3\r\nyyy\r\n", b"HD\r\n"),
    (0, b"mg a v c t\r\n", b"VA 3 c6 t-1\r\nyyy\r\n"),
    (0, b"mg a R200 v c\r\n", b"VA 3 c6\r\nyyy\r\n"),
    (0, b"mg a T20 R200 v c\r\n", b"VA 3 c6 W\r\nyyy\r\n"),
    (0, b"mg a T20 R200 v c t\r\n", b"VA 3 c6 t20 Z\r\nyyy\r\n"),
    (
        0,
        b"md a q\r\nmd a q\r\nmd a k O5\r\n",
        b"NF\r\nNF ka O5\r\n",
    ),
    (
        0,
        b"ms a 2 ME\r\nab\r\nms a 2 ME\r\nab\r\n",
        b"HD\r\nNS\r\n",
    ),
    (
        0,
        b"ms a 2 MA\r\nab\r\nms a 2 MP\r\ncd\r\nmg a v\r\n",
        b"HD\r\nHD\r\nVA 6\r\ncdabab\r\n",
    ),
    (
        0,
        b"ms zz 2 MA\r\nab\r\nms zz 2 MR\r\nab\r\nms a 2 MS\r\nab\r\n",
        b"NS\r\nNS\r\nHD\r\n",
    ),
    (
        0,
        b"ms a 2 MX\r\nab\r\n",
        b"CLIENT_ERROR invalid mode for ms M token\r\n",
    ),
    (0, b"mg a O k v\r\n", b"VA 2 O ka\r\nab\r\n"),
];

/// Counting by a meta command, and its faults.
const META_COUNTED: &[Row] = &[
    (0, b"ma n\r\nma n N30\r\n", b"NF\r\nHD\r\n"),
    (0, b"ma n N30 v t c\r\n", b"VA 1 t30 c2\r\n1\r\n"),
    (1_000, b"ma n N30 J10 D5 v t c\r\n", b"VA 1 t29 c3\r\n6\r\n"),
    (
        1_000,
        b"ma m N30 J10 D5 v t c\r\n",
        b"VA 2 t30 c4\r\n10\r\n",
    ),
    (1_000, b"ma m MD D5 v t c\r\n", b"VA 1 t30 c5\r\n5\r\n"),
    (1_000, b"ma m MD D50 v t c\r\n", b"VA 1 t30 c6\r\n0\r\n"),
    (1_000, b"ma m MI v T50 t\r\n", b"VA 1 t50\r\n1\r\n"),
    (
        1_000,
        b"ma m C1 v\r\nma m q\r\nma zz q k O1 v\r\n",
        b"EX\r\nNF kzz O1\r\n",
    ),
    (
        1_000,
        b"set m 0 0 3\r\nabc\r\nma m\r\n",
        b"STORED\r\nCLIENT_ERROR cannot increment or decrement non-numeric value\r\n",
    ),
    (
        1_000,
        b"mg\r\nmg m Z\r\n",
        b"ERROR\r\nCLIENT_ERROR invalid flag\r\n",
    ),
    (
        1_000,
        b"mg m N\r\nmg m Tx v\r\n",
        b"CLIENT_ERROR bad token in command line format\r\nCLIENT_ERROR bad token in command line format\r\n",
    ),
    (
        1_000,
        b"ms m x\r\nab\r\n",
        b"CLIENT_ERROR bad command line format\r\nERROR\r\n",
    ),
    (
        1_000,
        b"ms m 2 c\r\nabc\r\nmd m C99999\r\n",
        b"CLIENT_ERROR bad data chunk\r\nERROR\r\nEX\r\n",
    ),
];

/// Numbers and expiries as they are written.
const NUMBERS: &[Row] = &[
    (
        0,
        b"set a 0 4294967295 1\r\nx\r\nget a\r\n",
        b"STORED\r\nEND\r\n",
    ),
    (
        0,
        b"set a 0 2147483648 1\r\nx\r\nget a\r\n",
        b"STORED\r\nEND\r\n",
    ),
    (
        0,
        b"set a 0 2147483647 1\r\nx\r\nmg a t\r\n",
        b"STORED\r\nHD t447483647\r\n",
    ),
    (
        0,
        b"set a 0 4294967296 1\r\nx\r\nmg a t\r\n",
        b"STORED\r\nHD t-1\r\n",
    ),
    (
        0,
        b"set a 0 -4294967291 1\r\nx\r\nmg a t\r\n",
        b"STORED\r\nHD t5\r\n",
    ),
    (
        0,
        b"set a 0 9223372036854775808 1\r\nset a 0 -9223372036854775809 1\r\n",
        b"CLIENT_ERROR bad command line format\r\nCLIENT_ERROR bad command line format\r\n",
    ),
    (
        0,
        b"set a 0 9223372036854775807 1\r\nx\r\nget a\r\n",
        b"STORED\r\nEND\r\n",
    ),
    (
        0,
        b"set a 0 0 1\r\nx\r\ntouch a 4294967295\r\nget a\r\n",
        b"STORED\r\nTOUCHED\r\nEND\r\n",
    ),
    (
        0,
        b"set a 0 0 1\r\nx\r\ngat 2147483648 a\r\nget a\r\n",
        b"STORED\r\nVALUE a 0 1\r\nx\r\nEND\r\nEND\r\n",
    ),
    (
        0,
        b"ms a 1 T4294967295\r\nx\r\nmg a\r\nmg b v N4294967295\r\nmg b\r\n",
        b"HD\r\nEN\r\nVA 0 W\r\n\r\nEN\r\n",
    ),
    (
        0,
        b"set a 0 0 1\r\nx\r\nflush_all 4294967295\r\nget a\r\n",
        b"STORED\r\nOK\r\nEND\r\n",
    ),
    (
        0,
        b"set a +1 +5 +1\r\nx\r\nmg a f s t\r\n",
        b"STORED\r\nHD f1 s1 t5\r\n",
    ),
    (
        0,
        b"set n 0 0 2\r\n+5\r\nincr n +1\r\nincr n ++1\r\nincr n +\r\n",
        b"STORED\r\n6\r\nCLIENT_ERROR invalid numeric delta argument\r\nCLIENT_ERROR invalid numeric delta argument\r\n",
    ),
    (
        0,
        b"set a 0 0 2147483647\r\nset a 0 0 2147483646\r\nms a 2147483646\r\nversion\r\n",
        b"CLIENT_ERROR bad command line format\r\nCLIENT_ERROR bad command line format\r\nCLIENT_ERROR bad command line format\r\nVERSION 1.6.18\r\n",
    ),
];

/// Flags of meta commands, and what is told by them.
const FLAGS: &[Row] = &[
    (
        0,
        b"set a 0 0 1\r\nx\r\nmd a s N30 R3 F3 J3 D3 v k O1 P L\r\n",
        b"STORED\r\nHD ka O1\r\n",
    ),
    (0, b"ms a 1 v N3 R3 D1 J1 s t f k\r\nx\r\n", b"HD ka\r\n"),
    (0, b"mg a F3 D1 J1 C5 MX I s\r\n", b"HD s1\r\n"),
    (
        0,
        b"set n 5 30 1\r\n1\r\nmg n R-1\r\nmg n R0\r\nmg n R31\r\nmg n R31\r\n",
        b"STORED\r\nHD\r\nHD\r\nHD W\r\nHD Z\r\n",
    ),
    (
        0,
        b"set n 5 0 1\r\n1\r\nma n v f t k s O1\r\n",
        b"STORED\r\nVA 1 t-1 kn O1\r\n2\r\n",
    ),
    (
        0,
        b"mg n O1234567890123456789012345678901\r\nmg n O12345678901234567890123456789012\r\n",
        b"HD O1234567890123456789012345678901\r\nCLIENT_ERROR opaque token too long\r\n",
    ),
    (
        0,
        b"mg n MSS\r\nms n 1 MSet\r\nz\r\nms n 1 M\r\nz\r\nms n 1 Ms\r\nz\r\n",
        b"CLIENT_ERROR incorrect length for M token\r\nCLIENT_ERROR incorrect length for M token\r\nCLIENT_ERROR incorrect length for M token\r\nCLIENT_ERROR invalid mode for ms M token\r\n",
    ),
    (
        0,
        b"ma n MZ\r\nma n Md\r\nma n Mi\r\nma n M+ v\r\nma n M- v\r\n",
        b"CLIENT_ERROR invalid mode for ma M token\r\nCLIENT_ERROR invalid mode for ma M token\r\nCLIENT_ERROR invalid mode for ma M token\r\nVA 1\r\n3\r\nVA 1\r\n2\r\n",
    ),
    (
        0,
        b"ma nn N30 q v\r\nma nn N30 q v\r\nmn\r\n",
        b"VA 1\r\n0\r\nMN\r\n",
    ),
    (
        0,
        b"ma nn C0 v\r\nma nn C1 v\r\nmd nn C0\r\n",
        b"VA 1\r\n2\r\nEX\r\nEX\r\n",
    ),
];

/// Uniques that a `ms` names, and what each mode makes of them.
const COMPARED: &[Row] = &[
    (
        0,
        b"set a 5 0 3\r\nabc\r\nset a 5 0 3\r\nabc\r\n",
        b"STORED\r\nSTORED\r\n",
    ),
    (
        0,
        b"ms a 3 C1 I MA\r\nxyz\r\nms a 3 C1 I MP\r\nxyz\r\nms a 3 C1 I ME\r\nxyz\r\nms a 3 C1 ME\r\nxyz\r\n",
        b"EX\r\nEX\r\nNS\r\nNS\r\n",
    ),
    (
        0,
        b"ms a 3 C0 I\r\nxyz\r\nms a 3 C0\r\nxyz\r\nms a 3 C0 MR\r\nxyz\r\nmg a v f\r\n",
        b"EX\r\nEX\r\nEX\r\nVA 3 f5\r\nabc\r\n",
    ),
    (
        0,
        b"ms a 1 C0 MA\r\nd\r\nms a 1 C0 MP\r\ne\r\nmg a v f\r\n",
        b"HD\r\nHD\r\nVA 5 f5\r\neabcd\r\n",
    ),
    (
        0,
        b"ms a 1 C1 I MR\r\nz\r\nmg a v f\r\n",
        b"HD\r\nVA 1 f0 X W\r\nz\r\n",
    ),
    (
        0,
        b"ms b 1 C1 MA\r\nx\r\nms b 1 C1 MP\r\nx\r\nms b 1 C1 MR\r\nx\r\nms b 1 C1 MS\r\nx\r\nms b 1 C1 ME\r\nx\r\nmg b v\r\n",
        b"NS\r\nNS\r\nNF\r\nNF\r\nHD\r\nVA 1\r\nx\r\n",
    ),
];

/// Data blocks of more bytes than the service takes: what a `set` was to replace goes.
const SMALL: Setup = Setup {
    capacity: 1 << 26,
    item_size: 10,
};

const TOO_LARGE: &[Row] = &[
    (
        0,
        b"set a 0 0 10\r\n0123456789\r\nget a\r\n",
        b"STORED\r\nVALUE a 0 10\r\n0123456789\r\nEND\r\n",
    ),
    (
        0,
        b"add b 0 0 11\r\nget a\r\nmg a\r\nget a\r\n",
        b"SERVER_ERROR object too large for cache\r\nVALUE a 0 10\r\n0123456789\r\nEND\r\n",
    ),
    (
        0,
        b"set a 0 0 11 noreply\r\n01234567890\r\nget a\r\n",
        b"END\r\n",
    ),
    (
        0,
        b"set a 0 0 11\r\n01234567890\r\nversion\r\n",
        b"SERVER_ERROR object too large for cache\r\nVERSION 1.6.18\r\n",
    ),
];

/// A `ms` whose flags are wrong leaves the item.
const FAULTY_AND_TOO_LARGE: &[Row] = &[
    (
        0,
        b"set a 0 0 1\r\nx\r\nms a 11 zz\r\n01234567890\r\nget a\r\n",
        b"STORED\r\nCLIENT_ERROR invalid flag\r\nVALUE a 0 1\r\nx\r\nEND\r\n",
    ),
    (
        0,
        b"ms a 11\r\n01234567890\r\nget a\r\n",
        b"SERVER_ERROR object too large for cache\r\nEND\r\n",
    ),
];

/// Room for one item of 9 bytes under a key of one byte.
const NARROW: Setup = Setup {
    capacity: 240,
    item_size: 100,
};

const TOO_HEAVY: &[Row] = &[
    (
        0,
        b"set a 0 0 10\r\n0123456789\r\nget a\r\n",
        b"SERVER_ERROR out of memory storing object\r\nEND\r\n",
    ),
    (
        0,
        b"set a 0 0 9\r\n012345678\r\nget a\r\n",
        b"STORED\r\nVALUE a 0 9\r\n012345678\r\nEND\r\n",
    ),
];

/// Room for two items: the one that was used longest ago goes, a second later at the latest.
const TIGHT: Setup = Setup {
    capacity: 600,
    item_size: 10,
};

const EVICTED: &[Row] = &[
    (
        0,
        b"set a 0 0 1\r\nx\r\nset b 0 0 1\r\ny\r\n",
        b"STORED\r\nSTORED\r\n",
    ),
    (1_000, b"get a\r\n", b"VALUE a 0 1\r\nx\r\nEND\r\n"),
    (2_000, b"set c 0 0 1\r\nz\r\n", b"STORED\r\n"),
    (3_000, b"get d\r\n", b"END\r\n"),
    (
        4_000,
        b"get a b c\r\n",
        b"VALUE a 0 1\r\nx\r\nVALUE c 0 1\r\nz\r\nEND\r\n",
    ),
];

/// Statistics that do not tell of time.
const TOLD: &[Row] = &[
    (0, b"stats items\r\n", b"END\r\n"),
    (
        0,
        b"stats settings\r\n",
        b"STAT maxbytes 67108864\r\nSTAT item_size_max 1048576\r\nSTAT num_threads 1\r\nSTAT evictions on\r\nEND\r\n",
    ),
    (0, b"stats reset\r\nstats x\r\n", b"RESET\r\nERROR\r\n"),
];

/// What memcached 1.6.18 counts of requests.
const TALLIED: &[Tallied] = &[
    (b"set k 0 0 1\r\nx\r\n", &[("cmd_set", 1)]),
    (b"add k 0 0 1\r\nx\r\n", &[("cmd_set", 1)]),
    (b"replace k 0 0 1\r\n5\r\n", &[("cmd_set", 1)]),
    (b"append z 0 0 1\r\n1\r\n", &[("cmd_set", 1)]),
    (b"get k\r\n", &[("cmd_get", 1), ("get_hits", 1)]),
    (b"get z\r\n", &[("cmd_get", 1), ("get_misses", 1)]),
    (
        b"get k z k\r\n",
        &[("cmd_get", 3), ("get_hits", 2), ("get_misses", 1)],
    ),
    (
        b"gat 0 k z\r\n",
        &[("cmd_touch", 2), ("touch_hits", 1), ("touch_misses", 1)],
    ),
    (b"touch k 0\r\n", &[("cmd_touch", 1), ("touch_hits", 1)]),
    (b"touch z 0\r\n", &[("cmd_touch", 1), ("touch_misses", 1)]),
    (b"incr k 1\r\n", &[("incr_hits", 1)]),
    (b"decr k 1\r\n", &[("decr_hits", 1)]),
    (b"incr z 1\r\n", &[("incr_misses", 1)]),
    (b"decr z 1\r\n", &[("decr_misses", 1)]),
    (b"set w 0 0 1\r\nw\r\n", &[("cmd_set", 1)]),
    (b"incr w 1\r\n", &[]),
    (
        b"cas k 0 0 1 1\r\n5\r\n",
        &[("cmd_set", 1), ("cas_badval", 1)],
    ),
    (
        b"cas z 0 0 1 1\r\n5\r\n",
        &[("cmd_set", 1), ("cas_misses", 1)],
    ),
    (b"delete w\r\n", &[("delete_hits", 1)]),
    (b"delete w\r\n", &[("delete_misses", 1)]),
    (b"mg k v\r\n", &[("cmd_get", 1), ("get_hits", 1)]),
    (b"mg z v\r\n", &[("cmd_get", 1), ("get_misses", 1)]),
    (b"mg k T0\r\n", &[("cmd_touch", 1), ("touch_hits", 1)]),
    (b"mg z T0\r\n", &[("cmd_get", 1), ("get_misses", 1)]),
    (b"md k C1\r\n", &[("delete_misses", 1)]),
    (b"md z\r\n", &[("delete_misses", 1)]),
    (b"ma k\r\n", &[("incr_hits", 1)]),
    (b"ma z\r\n", &[("incr_misses", 1)]),
    (b"ma k MD\r\n", &[("decr_hits", 1)]),
    (b"ma z MD\r\n", &[("decr_misses", 1)]),
    (b"ma j N0\r\n", &[]),
    (b"ma k C1\r\n", &[]),
    (b"md j\r\n", &[("delete_hits", 1)]),
    (b"ms k 1\r\n5\r\n", &[("cmd_set", 1)]),
    (b"ms k 1 C1\r\n5\r\n", &[("cmd_set", 1), ("cas_badval", 1)]),
    (b"ms z 1 C1\r\n5\r\n", &[("cmd_set", 1), ("cas_misses", 1)]),
    (b"ms z 1 MA\r\n5\r\n", &[("cmd_set", 1)]),
    (
        b"ms k 1 MS C1 I\r\n5\r\n",
        &[("cmd_set", 1), ("cas_hits", 1)],
    ),
    (b"ms k 1 ME C1\r\n5\r\n", &[("cmd_set", 1)]),
    (b"ms k 1 MA C1 I\r\nx\r\n", &[("cmd_set", 1)]),
    (b"ms k 1 MA C0\r\nx\r\n", &[("cmd_set", 1)]),
    (b"ms k 1 X\r\n5\r\n", &[]),
    (b"mg k !\r\n", &[]),
    (b"md k I\r\n", &[]),
    (b"flush_all 100\r\n", &[("cmd_flush", 1)]),
    (b"verbosity 1\r\n", &[]),
    (b"version\r\n", &[]),
];

/// Requests of which each is asked once more, if it is refused for memory.
const AGAIN: &[Row] = &[
    (0, b"set a 5 0 3\r\nabc\r\n", b"STORED\r\n"),
    (0, b"get a\r\n", b"VALUE a 5 3\r\nabc\r\nEND\r\n"),
    (0, b"add b 1 0 2\r\nxy\r\n", b"STORED\r\n"),
    (0, b"replace a 6 0 1\r\nd\r\n", b"STORED\r\n"),
    (0, b"append b 7 0 2\r\nzz\r\n", b"STORED\r\n"),
    (0, b"prepend b 7 0 2\r\nww\r\n", b"STORED\r\n"),
    (0, b"gets b\r\n", b"VALUE b 1 6 5\r\nwwxyzz\r\nEND\r\n"),
    (0, b"cas b 1 0 2 5\r\n10\r\n", b"STORED\r\n"),
    (0, b"incr b 5\r\n", b"15\r\n"),
    (0, b"touch b 100\r\n", b"TOUCHED\r\n"),
    (0, b"gat 200 b\r\n", b"VALUE b 1 2\r\n15\r\nEND\r\n"),
    (0, b"mg c v N30\r\n", b"VA 0 W\r\n\r\n"),
    (0, b"ms c 2 T30\r\nab\r\n", b"HD\r\n"),
    (0, b"md c I\r\n", b"HD\r\n"),
    (0, b"mg c v T60\r\n", b"VA 2 X W\r\nab\r\n"),
    (0, b"ma n N0 J5 v\r\n", b"VA 1\r\n5\r\n"),
    (0, b"delete a\r\n", b"DELETED\r\n"),
    (0, b"get a\r\n", b"END\r\n"),
    (0, b"flush_all\r\n", b"OK\r\n"),
];

#[test]
fn stored(rt: HostRuntime) {
    assert!(rt; all_right(rt.alloc(), LARGE, STORED));
}

#[test]
fn counted(rt: HostRuntime) {
    assert!(rt; all_right(rt.alloc(), LARGE, COUNTED));
}

#[test]
fn expired(rt: HostRuntime) {
    assert!(rt; all_right(rt.alloc(), LARGE, EXPIRED));
}

#[test]
fn malformed(rt: HostRuntime) {
    assert!(rt; all_right(rt.alloc(), LARGE, MALFORMED));
}

#[test]
fn meta(rt: HostRuntime) {
    assert!(rt; all_right(rt.alloc(), LARGE, META));
}

#[test]
fn meta_counted(rt: HostRuntime) {
    assert!(rt; all_right(rt.alloc(), LARGE, META_COUNTED));
}

#[test]
fn numbers(rt: HostRuntime) {
    assert!(rt; all_right(rt.alloc(), LARGE, NUMBERS));
}

#[test]
fn flags(rt: HostRuntime) {
    assert!(rt; all_right(rt.alloc(), LARGE, FLAGS));
}

#[test]
fn compared(rt: HostRuntime) {
    assert!(rt; all_right(rt.alloc(), LARGE, COMPARED));
}

#[test]
fn too_large(rt: HostRuntime) {
    assert!(rt; all_right(rt.alloc(), SMALL, TOO_LARGE));
}

#[test]
fn faulty_and_too_large(rt: HostRuntime) {
    assert!(rt; all_right(rt.alloc(), SMALL, FAULTY_AND_TOO_LARGE));
}

#[test]
fn too_heavy(rt: HostRuntime) {
    assert!(rt; all_right(rt.alloc(), NARROW, TOO_HEAVY));
}

#[test]
fn evicted(rt: HostRuntime) {
    assert!(rt; all_right(rt.alloc(), TIGHT, EVICTED));
}

/// Of 94 items there is room for two, and at most 63 wait for maintenance.
#[test]
fn bounded(rt: HostRuntime) {
    assert!(rt; is_bounded(rt.alloc(), TIGHT));
}

#[test]
fn large_deleted(rt: HostRuntime) {
    assert!(rt; is_large_deleted(rt.alloc()));
}

#[test]
fn told(rt: HostRuntime) {
    assert!(rt; all_right(rt.alloc(), LARGE, TOLD));
}

#[test]
fn again(rt: HostRuntime) {
    assert!(rt; all_right_again(rt.alloc(), AGAIN));
}

#[test]
fn tallied(rt: HostRuntime) {
    assert!(rt; is_tallied(rt.alloc(), TALLIED));
}
