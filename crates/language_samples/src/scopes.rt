//! Names, calls, parameters, `let`, and `$` names.

/// A program, and behind `~` the lines of `echo`, and the value of its last variable with the steps, or the fault.
pub(crate) const SCOPES: &str = "function f(a,b=2)=a+b; x=f(1); ~ 3 @7
function f(a,b=2)=[a,b]; x=f(b=5,1); ~ [1, 5] @9
function f(a,b=2)=[a,b]; x=f(1,2,3,4); ~ [1, 2] @11
function f(a,b=2)=[a,b]; x=f(a=1,2,a=3); ~ [3, 2] @11
function f(a,b=a)=[a,b]; a=7; x=f(1); ~ [1, 7] @11
function f(a,b=$c)=[a,b]; x=f(1,$c=9); ~ [1, 9] @10
function f(a,$b=3)=g(a); function g(a)=[a,$b]; x=f(1); ~ [1, 3] @11
function f(a,$b)=g(a); function g(a)=[a,$b]; x=f(1);  ~ [1, undef] @10
function f(a)=g(a); function g(a)=[a,$b]; x=f(1,$b=4); ~ [1, 4] @11
function f(a,a,b)=[a,b]; x=f(1,2,3); ~ [2, 3] @10
function f(a,b)=b; x=f(1,c=2); ~ undef @5
function f(a)=$children; x=f(1,$children=3); ~ 3 @5
$x=3; function f()=$x; x=f(); ~ 3 @5
x=let(a=1,b=a+1) [a,b]; ~ [1, 2] @11
x=let(a=1,a=a+1) a; ~ 2 @7
x=let($a=1) f2(); function f2()=$a; ~ 1 @5
x=let(1) 2; ~ fault 7 1:3 let
x=let(a=1,2) 2; ~ fault 7 1:3 let
x=[let(a=2) a, let(a=3,b=a) each [a,b]]; ~ [2, 3, 3] @17
x=f3(1/0); function f3()=1; ~ fault 8 1:7 
x=f4(); function f4()=undefd; ~ undef @3
x=let(PI=3) PI; ~ 3 @4
y=x; x=1; ~ 1 @4
a=b; b=3; x=[a,b]; ~ [undef, 3] @10
x=let(a=echo(\"in\") 1) a; ~ ECHO: \"in\"|1 @16
function f(x=echo(\"d\") 3)=x; x=f(); ~ ECHO: \"d\"|3 @15
function f(x=echo(\"d\") 3)=x; x=f(2); ~ 2 @4
function f(x=echo(\"d\") 3, x=echo(\"e\") 4)=x; x=f(); ~ ECHO: \"d\"|ECHO: \"e\"|4 @27
function f(n)=[for(i=[0:n]) i*i]; x=f(10); ~ [0, 1, 4, 9, 16, 25, 36, 49, 64, 81, 100] @63
x=[for(a=[1,2],$b=[3,4]) h(a)]; function h(a)=[a,$b]; ~ [[1, 3], [1, 4], [2, 3], [2, 4]] @64
x=[for(i=[1:3]) let(j=i*2) if(j>2) each [i,j]]; ~ [2, 4, 3, 6] @49
x=h(); function h(x)=is_undef(x); ~ true @4
x=$fn+$fa+$fs; ~ 14 @6
x=$preview; ~ false @2
x=$t; ~ 0 @2
x=$nothing; ~ undef @2
x=[for($i=[1:3]) q()]; function q()=$i; ~ [1, 2, 3] @18
function a()=b(); function b()=c; c=5; x=a(); ~ 5 @6
function f()=1; function f()=2; x=f(); ~ 2 @3
function sin(x)=7; x=sin(1); ~ 7 @4
function PI()=7; x=[PI,PI()]; ~ [3.141593, 7] @7
x=f5(f5(1)); function f5(x)=x+1; ~ 3 @10
x=let(a=[1,2,3]) a[a[0]]; ~ 2 @14
x=let() 5; ~ 5 @3
x=let(a=1) let(b=a+1) let(a=5) [a,b]; ~ [5, 2] @14
x=let(a=b,b=2) [a,b]; ~ [undef, 2] @9
x=let($fn=5) $fn; ~ 5 @4
x=let(a=assert(false) 1) 2; ~ fault 10 1:9 
function f(a,b)=a-b; x=f(b=1,a=5); ~ 4 @7
function f(a,b)=a-b; x=f(b=1,5); ~ 4 @7
function f(a,b)=[a,b]; x=f(1,a=2,3); ~ [2, 3] @10
function f(a,b)=[a,b]; x=f(a=1,a=2); ~ [2, undef] @9
function f(a,b)=[a,b]; x=f(1,2,a=3,b=4); ~ [3, 4] @11
function f(a,b=1/0)=a; x=f(1,2); ~ 1 @5
function f(a,b=1/0)=a; x=f(1); ~ fault 8 1:17 
function f(a=1,b=a+1)=[a,b]; x=f(); ~ [1, undef] @11
function f(a=1,b=c)=[a,b]; c=9; x=f(2); ~ [2, 9] @11
function f($a=1,b=$a)=[$a,b]; x=f(); ~ [1, 1] @9
function f($a=1,b=$a)=[$a,b]; x=f(5); ~ [5, 5] @9
function f($a=1,b=$a)=[$a,b]; x=f($a=6); ~ [6, 6] @9
function f(b=$z)=b; x=let($z=4) f(); ~ 4 @6
function f()=$z; function g($z=7)=f(); x=g(); ~ 7 @5
function f()=$z; function g($z=7)=f(); x=[g(), f()]; ~ [7, undef] @10
function f()=$z; $z=2; x=[f(), f($z=3), f()]; ~ [2, 3, 2] @14
function f(n)=n<=1?1:n*f(n-1); x=f(10); ~ 3628800 @98
function even(n)=n==0?true:odd(n-1); function odd(n)=n==0?false:even(n-1); x=even(25); ~ false @208
function f(v)=[for(e=v) e*2]; x=f([1,2,3]); ~ [2, 4, 6] @27
function f(v)=len(v); x=f([1,2,3]); ~ 3 @11
function len(v)=42; x=len([1]); ~ 42 @6
function f(x)=g(x)+1; function g(x)=x*2; x=f(3); ~ 7 @10
x=f(1,2,3); function f(a)=a; ~ 1 @6
x=f(1/0,2); function f(a)=a; ~ fault 8 1:6 
x=f(y=1/0); function f(a)=a; ~ fault 8 1:8 
x=[for(i=[0:2]) let(k=i*i) k]; ~ [0, 1, 4] @27
x=[each let(a=[1,2]) each a]; ~ [1, 2] @13
x=[for($i=0;$i<2;$i=$i+1) $i]; ~ [0, 1] @25
x=[for(i=0;i<2;i=i+1) let(i=7) i]; ~ [7, 7] @29
x=[let(a=1,1) a]; ~ fault 7 1:4 let
a=1; a=2; x=a; ~ 2 @4
x=y; y=1; z=x; ~ undef @6
$a=1; $a=2; x=$a; ~ 2 @4
x=$a; $a=2; ~ 2 @4
function f(a)=let(b=a*2) [for(i=[0:b]) if(i%2==0) i]; x=f(3); ~ [0, 2, 4, 6] @69
function s(v,i=0)=i<len(v)?v[i]+s(v,i+1):0; x=s([1,2,3,4]); ~ 10 @74
function f(x)=assert(x>0,\"positive\") x; x=f(0); ~ fault 10 1:15 
function f(x)=assert(x>0,\"positive\") x; x=f(2); ~ 2 @9
function f(x)=echo(x=x) x; x=f(2)+f(3); ~ ECHO: x = 2|ECHO: x = 3|5 @34
function f(x)=x; x=f(f)+1; ~ undef @6
function f(a=echo(\"a\") 1,b=echo(\"b\") 2)=a+b; x=f(b=5); ~ ECHO: \"a\"|6 @18
function f(a,$children)=$children; x=f(1); ~ undef @4
x=let(a=1,b=2,c=3,d=4,e=5,f=6,g=7,h=8,i=9,j=10,i=11,b=12) [a,b,c,d,e,f,g,h,i,j]; ~ [1, 12, 3, 4, 5, 6, 7, 8, 11, 10] @35
function f(a,b,c,d,e,f,g,h,i=9,j=10)=[a,b,h,i,j]; x=f(1,2,3,4,5,6,7,8,j=12); ~ [1, 2, 8, 9, 12] @23";
