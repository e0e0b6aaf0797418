// Folders, and what is printed of them. What a line says of a name is what the rules of scope of the specification say of it;
// the order of packages but the first is left open there, and stands here as it is.

/// A name that is assigned, one that is shadowed, parameters and results.
const LOCALS: &str = "m
-- go.mod --
module m
-- main.go --
package main

var x = 1

func f(p int) (r int) {
\tx := p
\tx, y := x+1, 2
\t{
\t\tx := y
\t\tr = x
\t}
\treturn x
}

func main() {
\t_ = f(x)
}
";

const LOCALS_LINES: &str = "package m main main.go
declaration 0 main.go:3:5 x
declaration 0 main.go:5:6 f
declaration 0 main.go:5:8 p
declaration 0 main.go:5:16 r
declaration 0 main.go:6:2 x
declaration 0 main.go:7:5 y
declaration 0 main.go:9:3 x
declaration 0 main.go:15:6 main
use main.go:5:10 int -
use main.go:5:18 int -
use main.go:6:7 p main.go:5:8
use main.go:7:2 x main.go:6:2
use main.go:7:10 x main.go:6:2
use main.go:9:8 y main.go:7:5
use main.go:10:3 r main.go:5:16
use main.go:10:7 x main.go:9:3
use main.go:12:9 x main.go:6:2
use main.go:16:6 f main.go:5:6
use main.go:16:8 x main.go:3:5
";

/// Members of packages: of the module, from `stubs/`, of the library.
const PACKAGES: &str = "m
-- a/a.go --
package alpha

type T int

func F(t T) T { return t }
-- go.mod --
module m
-- main.go --
package main

import (
\t\"os\"
\tb \"m/a\"
\t\"x/y\"
)

func main() {
\tvar t b.T
\tos.Exit(y.N)
\t_ = b.F(t)
}
-- stubs/x/y/y.go --
package y

var N = 0
";

const PACKAGES_LINES: &str = "package m main main.go
package x/y y stubs/x/y/y.go
package m/a alpha a/a.go
package os os stub:os
package errors errors stub:errors
declaration 2 a/a.go:3:6 T
declaration 2 a/a.go:5:6 F
declaration 2 a/a.go:5:8 t
declaration 0 main.go:4:2 os
declaration 0 main.go:5:2 b
declaration 0 main.go:6:2 y
declaration 0 main.go:9:6 main
declaration 0 main.go:10:6 t
declaration 1 stubs/x/y/y.go:3:5 N
use a/a.go:3:8 int -
use a/a.go:5:10 T a/a.go:3:6
use a/a.go:5:13 T a/a.go:3:6
use a/a.go:5:24 t a/a.go:5:8
use main.go:10:8 T a/a.go:3:6
use main.go:11:2 os main.go:4:2
use main.go:11:5 Exit stub:os:11:6
use main.go:11:10 y main.go:6:2
use main.go:11:12 N stubs/x/y/y.go:3:5
use main.go:12:6 b main.go:5:2
use main.go:12:8 F a/a.go:5:6
use main.go:12:10 t main.go:10:6
";

/// The name of a type switch in each clause, receivers, keys, `init`, a type that is shadowed.
const SWITCHES: &str = "
-- main.go --
package main

type T struct{ a int }

func (r T) M(x interface{}) int {
\tswitch v := x.(type) {
\tcase int:
\t\treturn v
\tcase T:
\t\treturn v.a
\t}
\treturn r.a
}

func init() {}

func main() {
\tvar T = T{a: 1}
\t_ = T.M(2)
}
";

const SWITCHES_LINES: &str = "package main main main.go
declaration 0 main.go:3:6 T
declaration 0 main.go:5:7 r
declaration 0 main.go:5:14 x
declaration 0 main.go:7:2 v
declaration 0 main.go:9:2 v
declaration 0 main.go:15:6 init
declaration 0 main.go:17:6 main
declaration 0 main.go:18:6 T
use main.go:3:18 int -
use main.go:5:9 T main.go:3:6
use main.go:5:29 int -
use main.go:6:14 x main.go:5:14
use main.go:7:7 int -
use main.go:8:10 v main.go:7:2
use main.go:9:7 T main.go:3:6
use main.go:10:10 v main.go:9:2
use main.go:12:9 r main.go:5:7
use main.go:18:10 T main.go:3:6
use main.go:19:6 T main.go:18:6
";

/// Names of `range` and of a receive, a function literal.
const LOOPS: &str = "
-- main.go --
package main

func main() {
\tc := make(chan []string, 1)
\tselect {
\tcase x, ok := <-c:
\t\tfor i, s := range x {
\t\t\t_, _, _ = i, s, ok
\t\t}
\tdefault:
\t}
\tfor c := range c {
\t\t_ = c
\t}
\tf := func(n int) int { return n }
\t_ = f
}
";

const LOOPS_LINES: &str = "package main main main.go
declaration 0 main.go:3:6 main
declaration 0 main.go:4:2 c
declaration 0 main.go:6:7 x
declaration 0 main.go:6:10 ok
declaration 0 main.go:7:7 i
declaration 0 main.go:7:10 s
declaration 0 main.go:12:6 c
declaration 0 main.go:15:2 f
declaration 0 main.go:15:12 n
use main.go:4:7 make -
use main.go:4:19 string -
use main.go:6:18 c main.go:4:2
use main.go:7:21 x main.go:6:7
use main.go:8:14 i main.go:7:7
use main.go:8:17 s main.go:7:10
use main.go:8:20 ok main.go:6:10
use main.go:12:17 c main.go:4:2
use main.go:13:7 c main.go:12:6
use main.go:15:14 int -
use main.go:15:19 int -
use main.go:15:32 n main.go:15:12
use main.go:16:6 f main.go:15:2
";

/// Declarations of another file of the package, a predeclared name that is shadowed.
const FILES: &str = "m
-- b.go --
package main

import \"m/k\"

const len = k.A
-- k/k.go --
package k

const (
\tA = iota
\tB
)
-- main.go --
package main

func main() {
\tprintln(len, k2)
}

var k2 = len
";

const FILES_LINES: &str = "package m main b.go main.go
package m/k k k/k.go
declaration 0 b.go:3:8 k
declaration 0 b.go:5:7 len
declaration 1 k/k.go:4:2 A
declaration 1 k/k.go:5:2 B
declaration 0 main.go:3:6 main
declaration 0 main.go:7:5 k2
use b.go:5:13 k b.go:3:8
use b.go:5:15 A k/k.go:4:2
use k/k.go:4:6 iota -
use main.go:4:2 println -
use main.go:4:10 len b.go:5:7
use main.go:4:15 k2 main.go:7:5
use main.go:7:10 len b.go:5:7
";

/// A name that means nothing.
const UNKNOWN: &str = "
-- main.go --
package main

func main() {
\ty = 1
}
";

const UNKNOWN_LINES: &str = "main.go:4:2: not declared
";

/// How many cases there are.
pub const CASES: usize = 6;

/// A folder, and what is printed of it.
pub fn case(n: usize) -> (&'static str, &'static str) {
    match n {
        0 => (LOCALS, LOCALS_LINES),
        1 => (PACKAGES, PACKAGES_LINES),
        2 => (SWITCHES, SWITCHES_LINES),
        3 => (LOOPS, LOOPS_LINES),
        4 => (FILES, FILES_LINES),
        _ => (UNKNOWN, UNKNOWN_LINES),
    }
}
