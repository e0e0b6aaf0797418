// Names for which a declaration is in scope, and names that mean nothing.

/// The cases.
pub const CASES: &str = r#"
== unknown name
-- main.go --
package main
func main() { y = 1 } // ERROR 15 not declared
== unknown type
-- main.go --
package main
var x y // ERROR 7 not declared
func main() {}
== unknown package of a type
-- main.go --
package main
var x y.Z // ERROR 7 not declared
func main() {}
== own initialiser
-- main.go --
package main
func main() {
    x := x // ERROR 10 not declared
}
== own initialiser of var
-- main.go --
package main
func main() {
    var x = x // ERROR 13 not declared
}
== type in its own declaration
-- main.go --
package main
func main() {
    type t *t
    var x t
    _ = x
}
== before its declaration
-- main.go --
package main
func main() {
    x = 1 // ERROR 5 not declared
    var x int
}
== package level in any order
-- main.go --
package main
func main() {
    _ = x
}
var x = y
var y = 1
== parameter outside its body
-- main.go --
package main
func f(a int) {}
func main() {
    _ = a // ERROR 9 not declared
}
== result in its body
-- main.go --
package main
func f() (a int) { a = 1; return }
func main() {}
== receiver in its body
-- main.go --
package main
type t int
func (r t) m() { _ = r }
func main() {}
== literal sees what is around
-- main.go --
package main
func main() {
    a := 1
    f := func(b int) { _, _ = a, b }
    f(a)
}
== import unseen in a second file
-- a.go --
package main
import "os"
func main() {
    os.Exit(0)
}
-- b.go --
package main
func f() { os.Exit(1) } // ERROR 12 not declared
== blank import declares nothing
-- main.go --
package main
import _ "os"
func main() {
    os.Exit(0) // ERROR 5 not declared
}
== renamed import
-- main.go --
package main
import o "os"
func main() {
    o.Exit(0)
}
== old name of a renamed import
-- main.go --
package main
import o "os"
func main() {
    o.Exit(0)
    os.Exit(0) // ERROR 5 not declared
}
== package named unlike its folder
module m
-- go.mod --
module m
-- main.go --
package main
import "m/x"
func main() {
    y.F()
}
-- x/a.go --
package y
func F() {}
== folder named unlike its package
module m
-- go.mod --
module m
-- main.go --
package main
import "m/x"
func main() {
    x.F() // ERROR 5 not declared
}
-- x/a.go --
package y
func F() {}
== member not exported
module m
-- go.mod --
module m
-- main.go --
package main
import "m/x"
func main() {
    x.f() // ERROR 7 not declared
}
-- x/a.go --
package x
func f() {}
func F() {}
== member not declared
-- main.go --
package main
import "os"
func main() {
    os.Nothing() // ERROR 8 not declared
}
== member type not declared
-- main.go --
package main
import "os"
var x os.Nothing // ERROR 10 not declared
func main() {}
== imports are no members
module m
-- go.mod --
module m
-- main.go --
package main
import "m/x"
func main() {
    x.Os.Exit(1) // ERROR 7 not declared
}
-- x/a.go --
package x
import Os "os"
func f() { Os.Exit(1) }
== method is no name
-- main.go --
package main
type t int
func (t) m() {}
func main() {
    m() // ERROR 5 not declared
}
== field is no name
-- main.go --
package main
type t struct{ a int }
func main() {
    _ = a // ERROR 9 not declared
}
== key of a literal
-- main.go --
package main
type t struct{ a int }
func main() {
    _ = t{a: 1}
}
== label is no name
-- main.go --
package main
func main() {
    l:
        for {
            break l
        }
}
== member of a value
-- main.go --
package main
type t struct{ a int }
func main() {
    x := t{1}
    _ = x.a
}
== clause of a switch
-- main.go --
package main
func main() {
    switch {
    case true:
        x := 1
        _ = x
    default:
        _ = x // ERROR 13 not declared
    }
}
== behind a switch
-- main.go --
package main
func main() {
    switch x := 1; x {
    case 1:
        _ = x
    }
    _ = x // ERROR 9 not declared
}
== name of a type switch
-- main.go --
package main
func main() {
    var i interface{}
    switch x := i.(type) {
    case int:
        _ = x
    }
    _ = x // ERROR 9 not declared
}
== name of a type switch in its list
-- main.go --
package main
func main() {
    var i interface{}
    switch x := i.(type) {
    case x: // ERROR 10 not declared
    }
}
== names of a receive
-- main.go --
package main
func main() {
    c := make(chan int)
    select {
    case x, ok := <-c:
        _, _ = x, ok
    default:
        _ = ok // ERROR 13 not declared
    }
}
== name of a receive in its operand
-- main.go --
package main
func main() {
    select {
    case x := <-x: // ERROR 17 not declared
        _ = x
    }
}
== if and its else
-- main.go --
package main
func main() {
    if x := 1; x == 1 {
        _ = x
    } else {
        _ = x
    }
    _ = x // ERROR 9 not declared
}
== names of a for
-- main.go --
package main
func main() {
    for i := 0; i < 1; i++ {
        _ = i
    }
    _ = i // ERROR 9 not declared
}
== names of a range
-- main.go --
package main
func main() {
    var a []int
    for i, x := range a {
        _, _ = i, x
    }
    _ = x // ERROR 9 not declared
}
== range over itself
-- main.go --
package main
func main() {
    for i := range i { // ERROR 20 not declared
        _ = i
    }
}
== predeclared names
-- main.go --
package main
func main() {
    var e error
    _, _, _ = len("a"), nil == e, true
}
== predeclared shadowed
-- main.go --
package main
func main() {
    len := 1
    _ = len
}
== import shadowed
-- main.go --
package main
import "os"
func f() { os.Exit(1) }
func main() {
    os := struct{ a int }{1}
    _ = os.a
}
== first by file
-- a.go --
package main
func f() { z = 1 } // ERROR 12 not declared
-- main.go --
package main
func main() { y = 1 }
== dot import passes over
-- main.go --
package main
import . "os"
func main() {
    Exit(0)
}
== type parameters pass over
-- main.go --
package main
func f[T any](x T) T { return x }
func main() {}
== member of a flagged package
-- main.go --
package main
import "unsafe"
var p unsafe.Pointer
func main() {
    _ = 1.5
}
== unsafe reflect c
-- main.go --
package main
import (
    _ "C"
    "reflect"
    u "unsafe"
)
var a = reflect.ValueOf(1)
var b u.Pointer
func main() {}
== assembly in a reached folder
module m
-- go.mod --
module m
-- main.go --
package main
func main() {}
-- main.s --
-- x/a.s --
-- x/x.go --
package x
== directives
-- main.go --
package main
//go:build linux
//go:linkname a b
//go:embed x
//go:generate y
//go:buildx
func main() {}
== imaginary and floating
-- main.go --
package main
func main() {
    _ = 1i
    _ = 2.5e3
}
== types that are left out
-- main.go --
package main
var a float32
var b float64
var c complex64
var d complex128
var e uintptr
func main() {}
== built ins that are left out
-- main.go --
package main
func main() {
    recover()
    _ = real(complex(1, 2))
    _ = imag(3)
}
== recover shadowed
-- main.go --
package main
func recover() {}
func main() {
    recover()
}
== comparable bound
-- main.go --
package main
type t interface{ comparable }
func main() {}
== goto left out
-- main.go --
package main
func main() {
    l:
        goto l
}
== method expressions
-- main.go --
package main
type t int
func (t) m() {}
func main() {
    _ = t.m
    _ = (*t).m
    _ = (interface{ m() }).m
}
== function without a body
-- main.go --
package main
func f(x string) string
type t int
func (t) m()
func (*t) n() {}
func main() {}
== key named as a feature
-- main.go --
package main
type t struct{ float64 int }
func main() {
    _ = t{float64: 1}
}
"#;
